//! A link and a store in memory, each with one call that is to fail.
use crate::texts::goes_to_a_thread;
use dom_base::{Bytes, List, Text};
use dom_edge::{
    Accepted, Listener, MemoryLink, MemoryListener, MemorySink, MemoryStore, MemoryStream, Put,
    Store, StoreError, Wire,
};
use std::alloc::Global;
use std::test::Fail;

// The calls that are to fail: the second.
fn second(alloc: Global) -> Result<List<u64>, Fail> {
    Ok(List::from_vec(vec![in alloc; 1]?))
}

fn bytes(alloc: Global, text: &[u8]) -> Result<Bytes, Fail> {
    Ok(List::from_vec(text.to_vec(alloc)?))
}

fn link(alloc: Global) -> Result<MemoryLink, Fail> {
    let stream = MemoryStream::new(List::new(alloc), List::new(alloc));
    Ok(MemoryLink::new(stream, MemorySink::new(alloc, second(alloc)?)))
}

// The result of a write: all of it, a part, or nothing.
fn put<W: Wire>(link: &mut W) -> u8 {
    match link.write(b"ab") {
        Put::Bytes(2) => b'a',
        Put::Bytes(_) => b'p',
        Put::Failed => b'n',
    }
}

#[test]
fn a_link_takes_all_but_where_it_is_to_fail(rt: HostRuntime) -> Result<(), Fail> {
    let mut link = link(rt.alloc())?;
    let told = [put(&mut link), put(&mut link), put(&mut link)];
    assert_eq!(rt; &told, b"ana");
    assert_eq!(rt; link.bytes(), b"abab".as_slice());
    Ok(())
}

fn store(alloc: Global) -> Result<MemoryStore, Fail> {
    let file = (Text::copy_of(alloc, "a.txt")?, bytes(alloc, b"abc")?);
    let files = List::from_vec(vec![in alloc; file]?);
    Ok(MemoryStore::new(alloc, files, second(alloc)?))
}

// The result of a read: the file, something else, or why nothing.
fn read(alloc: Global, store: &mut MemoryStore, name: &str, limit: usize) -> u8 {
    match store.read(alloc, name, limit) {
        Ok(bytes) if bytes.as_slice() == b"abc".as_slice() => b'a',
        Ok(_) => b'o',
        Err(StoreError::TooLong) => b'l',
        Err(StoreError::Failed) => b'n',
        Err(StoreError::NoMemory) => b'm',
    }
}

#[test]
fn a_store_reads_but_where_it_is_to_fail(rt: HostRuntime) -> Result<(), Fail> {
    let alloc = rt.alloc();
    let mut store = store(alloc)?;
    let told = [
        read(alloc, &mut store, "a.txt", 3),
        read(alloc, &mut store, "a.txt", 3),
        read(alloc, &mut store, "a.txt", 2),
        read(alloc, &mut store, "b.txt", 3),
    ];
    assert_eq!(rt; &told, b"anln");
    assert_eq!(rt; store.failed_at(), b"b.txt".as_slice());
    Ok(())
}

fn is_quiet<L: Listener>(listener: &mut L) -> bool {
    matches!(listener.accept(), Accepted::Quiet)
}

#[test]
fn listeners_go_to_threads(rt: HostRuntime) {
    let alloc = rt.alloc();
    let mut listener = MemoryListener::new(List::new(alloc), List::new(alloc));
    goes_to_a_thread(&listener);
    assert!(rt; is_quiet(&mut listener));
}
