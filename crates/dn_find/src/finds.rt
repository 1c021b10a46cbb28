ghost use Rattle.std.specs.Prelude.{◌≡◌, ◌≢◌, ◌<◌, ◌+◌, ◌*◌, ◌↔◌, true, false};
ghost use Rattle.dn_act.specs.Action.{at_of};
ghost use Rattle.dn_act.specs.Words.{pool_size};
ghost use Rattle.dn_index.specs.Footprint.{purpose, Finds};
ghost use Rattle.dn_locate.specs.Fetch.{is_under_way, IsLoad};
ghost use Rattle.dn_find.specs.Find.{locating, started, find_next, walked, fetched, found_of};
ghost use Rattle.dn_find.specs.Causes.{IsWithout};
ghost use Rattle.dn_plan.specs.declared.phases.Way.{Way};
ghost use Rattle.dn_find.specs.Fit.{IsNear, FitsFind, FitsFound, find_left, HasFewer};
ghost use Rattle.dn_find.specs.Sequence.{Locates, locate};

use dn_act::Action;
use dn_index::{Walk, WalkTurn};
use dn_locate::{Fetch, FetchTurn, Wish};
use dn_plan::Way;
use dn_word::Ref;

/// How far the location of a key has come. The words of the record stand in the lane's `Fetch`.
#[derive(Clone, Copy)]
pub enum Find {
    /// The index is searched for the key.
    Walk { walk: Walk },
    /// The record at the place that was found this way is fetched.
    Fetch { way: Way },
}

/// How the location of a key goes on.
#[derive(Clone, Copy)]
pub enum Found {
    /// There is a next load.
    More { find: Find },
    /// The key is located. Where there is a `record` of it, its words and its place are the fetch's. There is none
    /// where the index gives no place for the key, or what stands at the place is no record of the key.
    Here { way: Way, record: bool },
}

/// Takes a word of the walk through the index. The record at the place that it finds is fetched.
#[tactic(auto, using(crate::proofs::FindLaws::walk_low))]
fn walk_on(walk: Walk, fetch: &mut Fetch, key: u64, wish: Wish, word: u64) -> Found
    requires finds { purpose walk ≡ Finds }
    ensures found { result ≡ (walked fetch.old key wish walk word).found }
    ensures fetch { fetch.new ≡ (walked fetch.old key wish walk word).fetch }
    ensures fits { FitsFound fetch.new result }
    ensures without { (way : Way) → result ≡ Found.Here way false
        ↔ IsWithout fetch.old word way (Find.Walk walk) }
    ensures falls { HasFewer (find_left fetch.old (Find.Walk walk)) fetch.new result }
{
    let mut walk = walk;
    match walk.take(word) {
        WalkTurn::More => Found::More {
            find: Find::Walk { walk },
        },
        WalkTurn::Found { at } => {
            fetch.start(key, at, wish);
            Found::More {
                find: Find::Fetch { way: Way::Index },
            }
        }
        WalkTurn::Absent | WalkTurn::Written | WalkTurn::IndexFull { .. } => Found::Here {
            way: Way::Index,
            record: false,
        },
    }
}

/// Takes a word of the fetch.
fn fetch_on(way: Way, fetch: &mut Fetch, word: u64) -> Found
    requires under_way { is_under_way fetch.old ≡ true }
    ensures found { result ≡ (fetched fetch.old way word).found }
    ensures fetch { fetch.new ≡ (fetched fetch.old way word).fetch }
    ensures fits { FitsFound fetch.new result }
    ensures without { (told : Way) → result ≡ Found.Here told false
        ↔ IsWithout fetch.old word told (Find.Fetch way) }
    ensures falls { HasFewer (find_left fetch.old (Find.Fetch way)) fetch.new result }
{
    match fetch.take(word) {
        FetchTurn::More => Found::More {
            find: Find::Fetch { way },
        },
        FetchTurn::Done => Found::Here { way, record: true },
        FetchTurn::Absent => Found::Here { way, record: false },
    }
}

impl Find {
    /// Begins to locate a key, which isn't 0. `pending` is the place of the key's last record that the lane sealed and
    /// that isn't merged yet, where that counts: this record is fetched. Where there is none the index is searched, and
    /// the record at the place that it gives is fetched. There is always a first load. The location runs its program to
    /// its end, whatever words it finds.
    pub fn start(fetch: &mut Fetch, key: u64, wish: Wish, pending: Option<Ref>) -> Find
        requires key { key ≢ 0 }
        requires pending { IsNear pending }
        ensures find { result ≡ (started fetch.old key wish pending).find }
        ensures fetch { fetch.new ≡ (started fetch.old key wish pending).fetch }
        ensures pool { fetch.new.segments ≡ fetch.old.segments }
        ensures fits { FitsFind fetch.new result }
        ensures left { find_left fetch.new result < 590000 }
        ensures sequence { Locates (locating result fetch.new) key wish
            (locate fetch.new.segments key wish pending) }
    {
        match pending {
            Some(at) => {
                fetch.start(key, at, wish);
                Find::Fetch { way: Way::Pending }
            }
            None => Find::Walk {
                walk: Walk::find(key),
            },
        }
    }

    /// The next load, of a word of the pool.
    #[tactic(auto, using(crate::proofs::FindLaws::walk_inside))]
    pub fn next(&self, fetch: &Fetch) -> Action
        requires { FitsFind fetch.now self.now }
        ensures value { result ≡ find_next fetch.now self.now }
        ensures footprint { IsLoad result }
        ensures inside { at_of result < pool_size fetch.now.segments }
    {
        match self {
            Find::Walk { walk } => walk.next(),
            Find::Fetch { .. } => fetch.next(),
        }
    }

    /// Takes the word that the load found, whatever it is, for the key and wish that the location was begun with. `Here`
    /// without a record comes exactly where the walk ended without a place, or the fetch met what is no record of the key.
    pub fn take(self, fetch: &mut Fetch, key: u64, wish: Wish, word: u64) -> Found
        requires { FitsFind fetch.old self }
        ensures found { result ≡ (found_of fetch.old key wish self word).found }
        ensures fetch { fetch.new ≡ (found_of fetch.old key wish self word).fetch }
        ensures pool { fetch.new.segments ≡ fetch.old.segments }
        ensures fits { FitsFound fetch.new result }
        ensures without { (way : Way) → result ≡ Found.Here way false
            ↔ IsWithout fetch.old word way self }
        ensures falls { HasFewer (find_left fetch.old self) fetch.new result }
    {
        match self {
            Find::Walk { walk } => walk_on(walk, fetch, key, wish, word),
            Find::Fetch { way } => fetch_on(way, fetch, word),
        }
    }
}
