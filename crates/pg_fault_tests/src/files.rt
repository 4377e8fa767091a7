//! Files of the system as a disk.

use pg_disk::{Disk, FileDisk, cut_synced, write_synced};
use pg_io::Failed;
use std::path::{Path, PathBuf};
use std::test::Fail;
use std::{env, fs, io, process};

/// Writes and cuts files of the name.
fn change<D: Disk>(disk: &mut D, name: &str) -> Result<(), Failed> {
    disk.choose(name)?;
    write_synced(disk, 0, 0, b"abcdef")?;
    write_synced(disk, 1, 2, b"d")?;
    disk.write_at(0, 1, b"xy")?;
    disk.write_at(0, 9, b"")?;
    cut_synced(disk, 0, 4)?;
    disk.cut(0, 9)
}

/// How many bytes the three files have.
fn lengths<D: Disk>(disk: &mut D) -> Result<(u64, u64, u64), Failed> {
    Ok((disk.length(0)?, disk.length(1)?, disk.length(2)?))
}

/// Whether a read from there on gives so many bytes, and these stand in the buffer then.
fn reads<D: Disk>(disk: &mut D, buf: &mut [u8; 3], at: u64, count: usize, bytes: &[u8]) -> bool {
    disk.read(0, at, buf) == Ok(count) && buf.as_slice() == bytes
}

/// Whether the changes are made, and are read again in pieces of at most three bytes.
fn keeps<D: Disk>(disk: &mut D, name: &str) -> bool {
    let changed = change(disk, name) == Ok(()) && lengths(disk) == Ok((4, 3, 0));
    let mut buf = [b'.'; 3];
    changed
        && reads(disk, &mut buf, 0, 3, b"axy")
        && reads(disk, &mut buf, 2, 2, b"ydy")
        && reads(disk, &mut buf, 4, 0, b"ydy")
        && reads(disk, &mut buf, 9, 0, b"ydy")
}

/// Whether the system's file has these bytes.
fn has(rt: &HostRuntime, name: &str, end: &str, bytes: &[u8]) -> io::Result<bool> {
    let path = format!(in rt.alloc(); "{name}.{end}")?;
    Ok(fs::read(rt, path.as_str())?.as_slice() == bytes)
}

/// Whether the system's three files have what was written.
fn have_all(rt: &HostRuntime, name: &str) -> io::Result<bool> {
    Ok(has(rt, name, "log", b"axyd")? && has(rt, name, "a", b"\0\0d")? && has(rt, name, "b", b"")?)
}

/// Whether a write that would end behind 2^64 fails.
fn fails_at_the_end<D: Disk>(disk: &mut D) -> bool {
    disk.write_at(0, u64::MAX, b"a") == Err(Failed)
}

/// Whether a sync fails, though the name is chosen.
fn fails_where_no_folder_is<D: Disk>(disk: &mut D, name: &str) -> bool {
    disk.choose(name) == Ok(()) && disk.sync(0) == Err(Failed)
}

/// The system's name of that end in this folder.
fn joined(rt: &HostRuntime, folder: &str, end: &str) -> io::Result<PathBuf> {
    Ok(Path::new(folder).join(rt.alloc(), end)?)
}

/// A folder of the test's own, which is not there yet.
fn own_folder(rt: &HostRuntime) -> io::Result<PathBuf> {
    let number = format!(in rt.alloc(); "pangaea-disk-{}", process::id(rt.process()))?;
    let all = env::temp_dir(rt)?;
    joined(rt, all.as_str(), number.as_str())
}

/// Whether this disk keeps files of the name in a folder, which is made, and fails where that is
/// gone.
fn keeps_in<D: Disk>(rt: &HostRuntime, disk: &mut D, folder: &str, name: &str) -> io::Result<bool> {
    fs::create_dir(rt, folder)?;
    let kept = keeps(disk, name) && have_all(rt, name)? && fails_at_the_end(disk);
    fs::remove_dir_all(rt, folder)?;
    Ok(kept && fails_where_no_folder_is(disk, name))
}

/// The same of a disk of the system, which counts both failures.
fn is_kept(rt: &HostRuntime, folder: &str, name: &str) -> io::Result<bool> {
    let mut disk = FileDisk::new(rt.alloc(), rt);
    let kept = keeps_in(rt, &mut disk, folder, name)?;
    Ok(kept && disk.faults() == 2)
}

/// The same by the name `n`.
fn is_kept_as_n(rt: &HostRuntime, folder: &str) -> io::Result<bool> {
    let name = joined(rt, folder, "n")?;
    is_kept(rt, folder, name.as_str())
}

#[test]
fn three_files_for_each_name(rt: HostRuntime) -> Result<(), Fail> {
    let folder = own_folder(&rt)?;
    assert!(rt; is_kept_as_n(&rt, folder.as_str())?);
    Ok(())
}
