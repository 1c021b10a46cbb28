//! The pool's map, read from the words by a plain slow program.

ghost use Rattle.std.specs.Prelude.{◌≡◌, ◌<◌, ◌≤◌, ℕ, true, length, Some, All, OnOk, OnErr, IfOk, IfErr};
ghost use Rattle.dn_model.specs.Regions.{bucket, home_of};
ghost use Rattle.dn_model.specs.Held.{is_authority};
ghost use Rattle.dn_model.specs.PoolMap.{HoldsMap, IsUnreadable};
ghost use Rattle.dn_model.specs.Told.{logs_of, chains_of, held_with, AreLogs, AreChains, Says_of, SomeLog, SomeChain, holds_of, Stray, Towards, IsRight, IsRightFor, AreRightFor, IsRightIn, IsRightBelow};

use crate::holdings::{Held, held_at};
use crate::indexes::{bucket_word, chain_of};
use crate::logs::{Placed, log_of};
use dn_hist::PlainMap;
use dn_record::Record;
use dn_word::{List, bucket_of};
use std::alloc::Global;
use thiserror::Error;

/// Why words hold no map.
#[derive(Debug, Drop, Error)]
pub enum MapFault {
    /// The words up to some gate's length are no records one behind another; or a chain goes back to a home bucket, leaves the
    /// buckets, or goes on past all 4,096 overflow buckets; or what decides about a key is astray: the index names no authority
    /// record of that key, or a shared key's place names nothing that has a value of that key or says that there is none.
    #[error("the words hold no map")]
    Unreadable,
    /// Want of memory.
    #[error("out of memory")]
    OutOfMemory,
}

/// The logs of all lanes, with an empty one for lane 0.
fn read_logs(alloc: Global, words: &[u64]) -> Result<Vec<List<Placed>>, MapFault>
    ensures logs { IfOk result (λ logs. AreLogs words.now 64 logs.items) }
    ensures fault { IfErr result (Says_of (SomeLog words.now)) }
{
    let mut logs = Vec::new(alloc);
    if logs.push(List::of(Vec::new(alloc))).is_err() {
        return Err(MapFault::OutOfMemory);
    }
    for lane in 1..64u8 {
        let log = match log_of(alloc, words, lane) {
            Ok(Some(log)) => log,
            Ok(None) => return Err(MapFault::Unreadable),
            Err(_) => return Err(MapFault::OutOfMemory),
        };
        if logs.push(log).is_err() {
            return Err(MapFault::OutOfMemory);
        }
    }
    Ok(logs)
}

/// The overflow buckets of all home buckets.
fn read_chains(alloc: Global, words: &[u64]) -> Result<Vec<List<u32>>, MapFault>
    ensures chains { IfOk result (λ chains. AreChains words.now 4096 chains.items) }
    ensures fault { IfErr result (Says_of (SomeChain words.now)) }
{
    let mut chains = Vec::new(alloc);
    for home in 0..4096u32 {
        let chain = match chain_of(alloc, words, home) {
            Ok(Some(chain)) => chain,
            Ok(None) => return Err(MapFault::Unreadable),
            Err(_) => return Err(MapFault::OutOfMemory),
        };
        if chains.push(chain).is_err() {
            return Err(MapFault::OutOfMemory);
        }
    }
    Ok(chains)
}

/// The overflow buckets of a key's home.
fn overflow_of<'a>(chains: &'a [List<u32>], key: u64) -> &'a [u32]
    requires { length chains.now ≡ 4096 }
    ensures { result.now ≡ chains_of chains.now (home_of key) }
{
    chains[bucket_of(key) as usize].as_slice()
}

/// The key of an authority record, and 0 for the other records.
fn authority_key(entry: &Record) -> u64
    ensures { (k : ℕ) → is_authority k entry.now ≡ true → result ≡ k }
{
    match entry {
        Record::Put { key, .. } => *key,
        Record::Delete { key } => *key,
        Record::Share { key, .. } => *key,
        Record::Unshare { key, .. } => *key,
        _ => 0,
    }
}

/// Makes the map right at a key; 0 is no key.
fn settle(
    alloc: Global,
    words: &[u64],
    logs: &[List<Placed>],
    chains: &[List<u32>],
    key: u64,
    map: &mut PlainMap,
) -> Result<(), MapFault>
    requires { AreChains words.now 4096 chains.now }
    ensures towards { OnOk result (Towards (holds_of words.now logs.now chains.now) map.old
        map.new) }
    ensures right { OnOk result (IsRight (holds_of words.now logs.now chains.now) map.new key) }
    ensures fault { IfErr result (Says_of (Stray (holds_of words.now logs.now chains.now))) }
{
    if key == 0 {
        return Ok(());
    }
    match held_at(words, logs, overflow_of(chains, key), key) {
        Held::Astray => Err(MapFault::Unreadable),
        Held::Nothing => {
            map.remove(key);
            Ok(())
        }
        Held::Is(value) => {
            let value = match value.copy(alloc) {
                Ok(value) => value,
                Err(_) => return Err(MapFault::OutOfMemory),
            };
            match map.insert(key, value) {
                Ok(()) => Ok(()),
                Err(_) => Err(MapFault::OutOfMemory),
            }
        }
    }
}

/// Makes the map right at each key of which a log has an authority record.
fn settle_log(
    alloc: Global,
    words: &[u64],
    logs: &[List<Placed>],
    chains: &[List<u32>],
    log: &[Placed],
    map: &mut PlainMap,
) -> Result<(), MapFault>
    requires { AreChains words.now 4096 chains.now }
    ensures towards { OnOk result (Towards (holds_of words.now logs.now chains.now) map.old
        map.new) }
    ensures right { OnOk result (IsRightFor (holds_of words.now logs.now chains.now) map.new
        log.now (length log.now)) }
    ensures fault { IfErr result (Says_of (Stray (holds_of words.now logs.now chains.now))) }
{
    for placed in log {
        match settle(
            alloc,
            words,
            logs,
            chains,
            authority_key(&placed.entry),
            map,
        ) {
            Ok(()) => {}
            Err(fault) => return Err(fault),
        }
    }
    Ok(())
}

/// The same of all logs.
fn settle_logs(
    alloc: Global,
    words: &[u64],
    logs: &[List<Placed>],
    chains: &[List<u32>],
    map: &mut PlainMap,
) -> Result<(), MapFault>
    requires { AreChains words.now 4096 chains.now }
    ensures towards { OnOk result (Towards (holds_of words.now logs.now chains.now) map.old
        map.new) }
    ensures right { OnOk result (AreRightFor (holds_of words.now logs.now chains.now) map.new
        logs.now (length logs.now)) }
    ensures fault { IfErr result (Says_of (Stray (holds_of words.now logs.now chains.now))) }
{
    for log in logs {
        match settle_log(alloc, words, logs, chains, log.as_slice(), map) {
            Ok(()) => {}
            Err(fault) => return Err(fault),
        }
    }
    Ok(())
}

/// Makes the map right at each key of a bucket.
fn settle_bucket(
    alloc: Global,
    words: &[u64],
    logs: &[List<Placed>],
    chains: &[List<u32>],
    number: u32,
    map: &mut PlainMap,
) -> Result<(), MapFault>
    requires chains { AreChains words.now 4096 chains.now }
    requires number { number < 8192 }
    ensures towards { OnOk result (Towards (holds_of words.now logs.now chains.now) map.old
        map.new) }
    ensures right { OnOk result (IsRightIn words.now (holds_of words.now logs.now chains.now)
        map.new number 4) }
    ensures fault { IfErr result (Says_of (Stray (holds_of words.now logs.now chains.now))) }
{
    for i in 1..4u32 {
        match settle(
            alloc,
            words,
            logs,
            chains,
            bucket_word(words, number, i),
            map,
        ) {
            Ok(()) => {}
            Err(fault) => return Err(fault),
        }
    }
    Ok(())
}

/// The same of all buckets.
fn settle_buckets(
    alloc: Global,
    words: &[u64],
    logs: &[List<Placed>],
    chains: &[List<u32>],
    map: &mut PlainMap,
) -> Result<(), MapFault>
    requires { AreChains words.now 4096 chains.now }
    ensures towards { OnOk result (Towards (holds_of words.now logs.now chains.now) map.old
        map.new) }
    ensures right { OnOk result (IsRightBelow words.now (holds_of words.now logs.now chains.now)
        map.new 8192) }
    ensures fault { IfErr result (Says_of (Stray (holds_of words.now logs.now chains.now))) }
{
    for number in 0..8192u32 {
        match settle_bucket(alloc, words, logs, chains, number, map) {
            Ok(()) => {}
            Err(fault) => return Err(fault),
        }
    }
    Ok(())
}

/// The map of these logs and chains.
fn map_from(
    alloc: Global,
    words: &[u64],
    logs: &[List<Placed>],
    chains: &[List<u32>],
) -> Result<PlainMap, MapFault>
    requires logs { AreLogs words.now 64 logs.now }
    requires chains { AreChains words.now 4096 chains.now }
    ensures map { IfOk result (λ map. HoldsMap words.now map) }
    ensures fault { IfErr result (Says_of (IsUnreadable words.now)) }
{
    let mut map = PlainMap::new(alloc);
    match settle_logs(alloc, words, logs, chains, &mut map) {
        Ok(()) => {}
        Err(fault) => return Err(fault),
    }
    match settle_buckets(alloc, words, logs, chains, &mut map) {
        Ok(()) => {}
        Err(fault) => return Err(fault),
    }
    Ok(map)
}

/// The map that the words hold, by the definitions and nothing faster: each lane's log and each home bucket's chain are read, and
/// then what is held at each key that stands in them. It is unreadable exactly where no map is held.
pub fn pool_map(alloc: Global, words: &[u64]) -> Result<PlainMap, MapFault>
    ensures map { IfOk result (λ map. HoldsMap words.now map) }
    ensures fault { IfErr result (Says_of (IsUnreadable words.now)) }
{
    let logs = match read_logs(alloc, words) {
        Ok(logs) => logs,
        Err(fault) => return Err(fault),
    };
    let chains = match read_chains(alloc, words) {
        Ok(chains) => chains,
        Err(fault) => return Err(fault),
    };
    map_from(alloc, words, logs.as_slice(), chains.as_slice())
}
