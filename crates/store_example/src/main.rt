//! Keeps a map in a journal: puts, deletes, commits, crashes, and opens again.
#![tactic(auto)]

ghost use Rattle.std.specs.Prelude.{List, IfOk};
ghost use Rattle.std.specs.FinMap.{get};
ghost use Rattle.crc32c.specs.Crc.{crc32c};
ghost use Rattle.disk.specs.History.{life_of};
ghost use Rattle.store.specs.Changes.{Bytes, MapComesBack};
ghost use Rattle.store.specs.Store.{AreCommitted, changes_of};

use crc32c::Crc32c;
use disk::{Blob, MemBlob};
use paged::recommended_cache;
use std::alloc::Global;
use std::io;
use store::{OpenError, Store, crash_and_open};

type Settings = Store<MemBlob, Crc32c, Crc32c>;

/// Puts three settings, takes one of them away again, commits, and puts one of them again.
fn keep(alloc: Global, blob: &mut MemBlob) -> Result<Settings, OpenError> {
    let mut cache = recommended_cache(alloc)?;
    let size = blob.len();
    let store: Settings = Store::open(alloc, blob, size, &mut cache)?;
    let store = store.put(blob, &mut cache, b"name", b"lamp")?;
    let store = store.put(blob, &mut cache, b"light", b"on")?;
    let store = store.put(blob, &mut cache, b"heat", b"low")?;
    let store = store.delete(blob, &mut cache, b"heat")?;
    let store = store.commit(blob, &mut cache)?;
    Ok(store.put(blob, &mut cache, b"light", b"off")?)
}

/// Opens what a crash left that keeps nothing which wasn't committed. Whatever was committed, the
/// settings come back with it.
fn crash(alloc: Global, blob: &mut MemBlob) -> Result<Settings, OpenError>
    ensures { let was = (life_of blob.old).present in
        (committed : List Bytes) → AreCommitted crc32c crc32c 4084 committed was
        → IfOk result (λ now. let all = changes_of crc32c now (life_of blob.new) in
        MapComesBack committed all (get now.map)) }
{
    let mut cache = recommended_cache(alloc)?;
    crash_and_open(alloc, blob, &[], &mut cache)
}

fn show(rt: &HostRuntime, store: &Result<Settings, OpenError>) -> io::Result<()> {
    match store {
        Ok(store) => {
            for key in ["name", "light", "heat"] {
                let value = store.get(key.as_bytes()).map_or("nothing", text_of);
                println!(rt; "{key} {value}")?;
            }
            Ok(())
        }
        Err(error) => println!(rt; "error {error}"),
    }
}

fn text_of(bytes: &[u8]) -> &str {
    str::from_utf8(bytes).unwrap_or("no text")
}

fn main(rt: HostRuntime) -> io::Result<()> {
    let alloc = rt.alloc();
    let mut blob = MemBlob::new(alloc);
    show(&rt, &keep(alloc, &mut blob))?;
    println!(rt; "after the crash")?;
    show(&rt, &crash(alloc, &mut blob))
}
