//! The file of a Unix socket: how it comes to its place, and when it is taken away.

use ini_config::Settings;
use mio::net::UnixListener;
use server_host::Host;
use std::alloc::Global;
use std::fs::{DirBuilder, Permissions};
use std::io::ErrorKind;
use std::os::unix::fs::{DirBuilderExt, FileTypeExt, MetadataExt, PermissionsExt, chown};
use std::{fs, io};
use tcp_listen::listener::Listener;
use tcp_reach::connect::is_listened_at;
use tcp_reach::places::{Place, socket_path};

/// So many names are tried for a folder of one's own, where others of that name are left over.
const NAMES: u32 = 10;

/// A folder that nobody else may look into.
const PRIVATE: u32 = 0o700;

/// A socket's file: its path, and the device and the number by which it is told from another at the same path.
#[derive(Drop)]
pub struct SocketFile {
    path: String,
    device: u64,
    inode: u64,
}

impl SocketFile {
    /// Takes the file away, where it is still the same. That it can't be is ignored.
    pub fn remove(&self, host: &HostRuntime) {
        if let Ok(there) = fs::symlink_metadata(host, &self.path) {
            if there.dev() == self.device && there.ino() == self.inode {
                let _ = fs::remove_file(host, &self.path);
            }
        }
    }
}

/// Whether nothing is at this path.
fn is_free(host: &HostRuntime, path: &str) -> io::Result<bool> {
    match fs::symlink_metadata(host, path) {
        Ok(_) => Ok(false),
        Err(error) if error.kind() == ErrorKind::NotFound => Ok(true),
        Err(error) => Err(error),
    }
}

/// Takes away the socket that a program left at this place which listens no more. The error is that one listens, that PostgreSQL's file
/// of its lock is there, or that something else is.
fn clear(host: &HostRuntime, alloc: Global, path: &str, place: &Place) -> io::Result<()> {
    let lock = format!(in alloc; "{path}.lock")?;
    if !is_free(host, &lock)? {
        return Err(io::Error::from(ErrorKind::AddrInUse));
    }
    if is_free(host, path)? {
        return Ok(());
    }
    if !fs::symlink_metadata(host, path)?.file_type().is_socket() {
        return Err(io::Error::from(ErrorKind::AlreadyExists));
    }
    if is_listened_at(host, alloc, place)? {
        return Err(io::Error::from(ErrorKind::AddrInUse));
    }
    fs::remove_file(host, path)
}

/// The number of the group of this name, or with this number.
fn group_of(host: &HostRuntime, name: &str) -> io::Result<u32> {
    if let Ok(number) = name.parse::<u32>() {
        return Ok(number);
    }
    let groups = fs::read_to_string(host, "/etc/group")?;
    for line in groups.lines() {
        let mut fields = line.split(':');
        if fields.next() == Some(name) {
            let number = fields.nth(1).and_then(|text| text.parse::<u32>().ok());
            return number.ok_or(io::Error::from(ErrorKind::InvalidData));
        }
    }
    Err(io::Error::from(ErrorKind::NotFound))
}

/// Gives the socket at this path the rights and the group of the settings.
fn give_rights(host: &HostRuntime, settings: &Settings, path: &str) -> io::Result<()> {
    let group = settings.unix_socket_group();
    if !group.is_empty() {
        let Ok(name) = std::str::from_utf8(group) else {
            return Err(io::Error::from(ErrorKind::InvalidInput));
        };
        chown(host, path, None, Some(group_of(host, name)?))?;
    }
    fs::set_permissions(
        host,
        path,
        Permissions::from_mode(settings.unix_socket_mode()),
    )
}

/// Makes a folder of one's own in another; its path.
fn make_folder(host: &HostRuntime, alloc: Global, folder: &str, port: u16) -> io::Result<String> {
    for number in 0..NAMES {
        let own = format!(in alloc; "{folder}/.pgs{port}-{number}")?;
        match DirBuilder::new().mode(PRIVATE).create(host, &own) {
            Ok(()) => return Ok(own),
            Err(error) if error.kind() == ErrorKind::AlreadyExists => {}
            Err(error) => return Err(error),
        }
    }
    Err(io::Error::from(ErrorKind::AlreadyExists))
}

/// A socket at the first path, with its rights, which is then moved to the second; its file.
fn bind_and_move(
    host: &HostRuntime,
    settings: &Settings,
    at_first: &str,
    path: String,
) -> io::Result<(UnixListener, SocketFile)> {
    let listener = UnixListener::bind(host, at_first)?;
    give_rights(host, settings, at_first)?;
    let there = fs::symlink_metadata(host, at_first)?;
    fs::rename(host, at_first, &path)?;
    let file = SocketFile {
        path,
        device: there.dev(),
        inode: there.ino(),
    };
    Ok((listener, file))
}

/// The place of the Unix socket of this port in a folder; none where that is no folder.
fn place_in(folder: &[u8], port: u16) -> Option<Place> {
    Place::in_folder(Host::new(folder)?, port)
}

/// A Unix socket in the folder of the settings, under the name that PostgreSQL gives one of that port. It is made in a folder of its own, so
/// that it has its rights before others see it.
pub fn listen_at_path(
    host: &HostRuntime,
    alloc: Global,
    settings: &Settings,
) -> io::Result<(Listener, SocketFile)> {
    let folder = settings.unix_socket_dir();
    let port = settings.listen_port();
    let (Ok(text), Some(place)) = (std::str::from_utf8(folder), place_in(folder, port)) else {
        return Err(io::Error::from(ErrorKind::InvalidInput));
    };
    let path = socket_path(alloc, text, port)?;
    clear(host, alloc, &path, &place)?;
    let own = make_folder(host, alloc, text, port)?;
    let at_first = format!(in alloc; "{own}/s")?;
    let bound = bind_and_move(host, settings, &at_first, path);
    if bound.is_err() {
        let _ = fs::remove_file(host, &at_first);
    }
    let _ = fs::remove_dir(host, &own);
    let (listener, file) = bound?;
    Ok((Listener::at_file(listener, place), file))
}
