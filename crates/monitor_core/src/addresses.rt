//! Addresses, as texts.
ghost use Rattle.std.specs.Prelude.{◌≡◌, ◌++◌, decimal, IfOk, OnOk};
ghost use Rattle.monitor_core.specs.Tables as spec;

use itoa::Buffer;
use std::alloc::{AllocError, Global};

fn put_number(text: &mut Vec<u8>, n: u64) -> Result<(), AllocError>
    ensures { OnOk result (text.new.items ≡ text.old.items ++ decimal n) }
{
    let mut digits = Buffer::new();
    text.extend_from_slice(digits.format(n).as_bytes())
}

/// A host and a port, with brackets round what has colons.
fn put_address(text: &mut Vec<u8>, host: &[u8], port: u16) -> Result<(), AllocError>
    ensures { OnOk result (text.new.items ≡ text.old.items ++ spec.address host.now port) }
{
    if host.contains(&b':') {
        text.push(b'[')?;
        text.extend_from_slice(host)?;
        text.push(b']')?;
    } else {
        text.extend_from_slice(host)?;
    }
    text.push(b':')?;
    put_number(text, port as u64)
}

/// A host and a port.
pub(crate) fn address(alloc: Global, host: &[u8], port: u16) -> Result<Vec<u8>, AllocError>
    ensures { IfOk result (λ v. v.items ≡ spec.address host.now port) }
{
    let mut text = Vec::new(alloc);
    put_address(&mut text, host, port)?;
    Ok(text)
}
