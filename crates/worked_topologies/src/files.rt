//! Folders in which a file is made once, in memory and in the machine, and what the machine's store refuses.
use crate::texts::goes_to_a_thread;
use dom_base::{List, Text};
use dom_edge::{
    FileFolder, FileStore, Folder, FolderError, MemoryFolder, Sink, Store, StoreError, write_all,
};
use std::alloc::Global;
use std::fs;
use std::test::Fail;
use std::time::{SystemTime, UNIX_EPOCH};

// The result of a call: done, failed, or no memory.
fn letter<T: Drop>(given: Result<T, FolderError>) -> u8 {
    match given {
        Ok(_) => b'd',
        Err(FolderError::Failed) => b'f',
        Err(FolderError::NoMemory) => b'm',
    }
}

fn enter<F: Folder>(alloc: Global, folder: &mut F, name: &str) -> u8 {
    letter(folder.enter(alloc, name))
}

fn write<K: Sink>(file: &mut K) -> bool {
    write_all(file, b"abc").is_ok()
}

// Makes a file, writes to it, and closes it under a name: what came of it, or that a write failed.
fn make<F: Folder>(alloc: Global, folder: &mut F, name: &str, close: &str) -> u8 {
    let mut file = match folder.create(alloc, name) {
        Ok(file) => file,
        Err(error) => return letter::<()>(Err(error)),
    };
    if write(&mut file) {
        letter(folder.close(alloc, close, file))
    } else {
        b'w'
    }
}

// A folder in memory in which a name stands; its second call is to fail, and the first write to its first file.
fn folder(alloc: Global) -> Result<MemoryFolder, Fail> {
    let names = List::from_vec(vec![in alloc; Text::copy_of(alloc, "a")?]?);
    let plan = List::from_vec(vec![in alloc; 0]?);
    let plans = List::from_vec(vec![in alloc; plan]?);
    let fails = List::from_vec(vec![in alloc; 1]?);
    Ok(MemoryFolder::new(alloc, names, plans, fails))
}

#[test]
fn a_name_is_made_once(rt: HostRuntime) -> Result<(), Fail> {
    let alloc = rt.alloc();
    let mut folder = folder(alloc)?;
    let told = [
        make(alloc, &mut folder, "a", "a"),
        enter(alloc, &mut folder, "b"),
        enter(alloc, &mut folder, "a"),
        enter(alloc, &mut folder, "b"),
        make(alloc, &mut folder, "a", "a"),
        make(alloc, &mut folder, "b", "b"),
        make(alloc, &mut folder, "c", "b"),
        make(alloc, &mut folder, "b", "b"),
    ];
    assert_eq!(rt; &told, b"fffdwdff");
    assert_eq!(rt; folder.failed_at(), b"b".as_slice());
    let [(name, bytes)] = folder.closed() else {
        return Err(Fail::from("one file was closed"));
    };
    assert_eq!(rt; name.as_str(), "b");
    assert_eq!(rt; bytes.as_slice(), b"abc".as_slice());
    goes_to_a_thread(&folder);
    Ok(())
}

// A name that nobody used before.
fn new_name(rt: HostRuntime) -> Result<String, Fail> {
    let since = SystemTime::now(&rt)?.duration_since(UNIX_EPOCH)?;
    Ok(format!(in rt.alloc(); "pce-test-{}", since.as_nanos())?)
}

// The result of a read of the machine's store: all, less, too long, or that it failed.
fn read<S: Store>(alloc: Global, store: &mut S, name: &str, limit: usize) -> u8 {
    match store.read(alloc, name, limit) {
        Ok(bytes) if bytes.as_slice() == b"abc".as_slice() => b'a',
        Ok(_) => b'o',
        Err(StoreError::TooLong) => b'l',
        Err(StoreError::Failed) => b'f',
        Err(StoreError::NoMemory) => b'm',
    }
}

#[test]
fn the_machine_makes_a_name_once(rt: HostRuntime) -> Result<(), Fail> {
    let alloc = rt.alloc();
    let name = new_name(rt)?;
    let mut folder = FileFolder::new(alloc, rt, Text::copy_of(alloc, "/tmp")?);
    let told = [
        enter(alloc, &mut folder, name.as_str()),
        make(alloc, &mut folder, "a", "a"),
        make(alloc, &mut folder, "a", "a"),
        make(alloc, &mut folder, "b", "a"),
        enter(alloc, &mut folder, "a"),
    ];
    assert_eq!(rt; folder.failed_at(), b"a".as_slice());
    let folder = format!(in alloc; "/tmp/{}", name)?;
    let file = format!(in alloc; "{}/a", folder)?;
    let mut store = FileStore::new(alloc, rt);
    let found = [
        read(alloc, &mut store, file.as_str(), 3),
        read(alloc, &mut store, file.as_str(), 2),
        read(alloc, &mut store, folder.as_str(), 3),
        read(alloc, &mut store, "/dev/null", 3),
    ];
    fs::remove_dir_all(&rt, folder.as_str())?;
    assert_eq!(rt; &told, b"ddfff");
    assert_eq!(rt; &found, b"alff");
    assert_eq!(rt; store.failed_at(), b"/dev/null".as_slice());
    Ok(())
}
