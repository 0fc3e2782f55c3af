//! HMAC-SHA-256 (RFC 4231, sections 4.2 to 4.8), and nonces.
use scram::hmac;
use scram::server_messages::nonce;
use std::test::Fail;

/// Whether the digest is spelled by these hex digits, or by these and more.
fn is_spelled(digest: [u8; 32], digits: &[u8]) -> bool {
    let mut text = [0u8; 64];
    let _ = hex::encode_to_slice(digest, &mut text);
    text.starts_with(digits)
}

#[test]
fn hmac_of_messages(rt: HostRuntime) -> Result<(), Fail> {
    let counted: [u8; 25] =
        *b"\x01\x02\x03\x04\x05\x06\x07\x08\x09\x0a\x0b\x0c\x0d\x0e\x0f\x10\x11\x12\x13\x14\x15\x16\x17\x18\x19";
    let rows: &[(&[u8], &[u8], &[u8])] = &[
        (
            &[0x0b; 20],
            b"Hi There",
            b"b0344c61d8db38535ca8afceaf0bf12b881dc200c9833da726e9376c2e32cff7",
        ),
        (
            b"Jefe",
            b"what do ya want for nothing?",
            b"5bdcc146bf60754e6a042426089575c75a003f089d2739839dec58b964ec3843",
        ),
        (
            &[0xaa; 20],
            &[0xdd; 50],
            b"773ea91e36800e46854db8ebd09181a72959098b3ef8c122d9635514ced565fe",
        ),
        (
            &counted,
            &[0xcd; 50],
            b"82558a389a443c0ea4cc819899f2083a85f0faa3e578f8077a2e3ff46729665b",
        ),
        // of which the RFC gives 128 bits
        (
            &[0x0c; 20],
            b"Test With Truncation",
            b"a3b6167473100ee06e0c796c2955552b",
        ),
        (
            &[0xaa; 131],
            b"Test Using Larger Than Block-Size Key - Hash Key First",
            b"60e431591ee0b67f0d8a26aacbf5b77f8e0bc6213728c5140546040f0ee37f54",
        ),
        (
            &[0xaa; 131],
            b"This is a test using a larger than block-size key and a larger than block-size data. The key needs to be hashed before being used by the HMAC algorithm.",
            b"9b09ffa71b942fcb27635fbcd5b0e944bfdc63644f0713938a7f51535c3a35e2",
        ),
    ];
    for &(key, message, digits) in rows {
        assert!(rt; is_spelled(hmac(key, message), digits));
    }
    Ok(())
}

/// By `printf abc | sha256sum | xxd -r -p | head -c 18 | base64`.
#[test]
fn nonce_of_a_secret(rt: HostRuntime) {
    assert!(rt; nonce(b"abc") == *b"ungWv48Bz+pBQUDeXa4iI7AD");
}
