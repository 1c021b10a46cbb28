//! Slots that change hands, over the worlds of `dn_outcomes`: definitions, and laws of them.
//!
//! A slot is granted where the deed of it gets a later epoch. [`laws`] has which events change deeds at all, what is so of
//! every grant, what slots owe at any time to the lanes that their deeds name, and how an order goes on and ends. Each is
//! said of the words of the pool, and of any sound world with any event.
#![tactic(auto)]

pub mod laws;
