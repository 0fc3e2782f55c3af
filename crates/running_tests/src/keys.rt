//! Key words out of seeds. The words are those of another program: ChaCha20 with a counter and a nonce of 64 bits each.
use key_source::KeySource;
use message_view::KeyWord;
use std::test::Fail;

/// The word at this place, counted from 0.
fn word_at(seed: [u8; 32], peer: u32, place: usize) -> KeyWord {
    let mut source = KeySource::new(seed, peer);
    for _ in 0..place {
        source.next();
    }
    source.next()
}

#[test]
fn words_of_a_seed_of_zeros(rt: HostRuntime) -> Result<(), Fail> {
    let words = [
        (0, 0x2de0_b876, 0x903d_f1a0, [0xe5, 0x6a, 0x5d, 0x40]),
        (1, 0x28bd_8653, 0xb819_d2bd, [0x1a, 0xed, 0x8d, 0xa0]),
        (5, 0x0665_eeb2, 0xbee7_079f, [0x7a, 0x38, 0x51, 0x55]),
    ];
    for (place, pid, secret, salt) in words {
        assert!(rt; word_at([0; 32], 0, place) == (KeyWord { pid, secret, salt }));
    }
    Ok(())
}

#[test]
fn words_of_a_seed_of_counted_bytes(rt: HostRuntime) -> Result<(), Fail> {
    let mut seed = [0u8; 32];
    for (at, byte) in seed.iter_mut().enumerate() {
        *byte = at as u8;
    }
    let words = [
        (0, 0x7d2b_fd39, 0x6a19_c5d9, [0x77, 0x03, 0xbd, 0x8d]),
        (5, 0x0c41_5b48, 0x3142_b818, [0xd1, 0xa6, 0xe6, 0xad]),
    ];
    for (place, pid, secret, salt) in words {
        assert!(rt; word_at(seed, 0, place) == (KeyWord { pid, secret, salt }));
    }
    Ok(())
}

// Its number is the first byte of the pid; all else is as without it.
#[test]
fn words_of_a_peer(rt: HostRuntime) -> Result<(), Fail> {
    for (peer, place, pid) in [
        (7, 0, 0x07e0_b876),
        (127, 1, 0x7fbd_8653),
        (1, 5, 0x0165_eeb2),
    ] {
        let alone = word_at([0; 32], 0, place);
        let word = word_at([0; 32], peer, place);
        assert!(rt; word.pid == pid);
        assert!(rt; word.secret == alone.secret && word.salt == alone.salt);
    }
    Ok(())
}
