//! The digests and servers of known messages.

use super::*;
use inf_base::{Id, Name, Triple, server_of};
use std::test::Fail;

/// SHA-256 of the empty message, which is the root's identifier.
const ROOT: [u8; 32] = [
    0xe3, 0xb0, 0xc4, 0x42, 0x98, 0xfc, 0x1c, 0x14, 0x9a, 0xfb, 0xf4, 0xc8, 0x99, 0x6f, 0xb9, 0x24,
    0x27, 0xae, 0x41, 0xe4, 0x64, 0x9b, 0x93, 0x4c, 0xa4, 0x95, 0x99, 0x1b, 0x78, 0x52, 0xb8, 0x55,
];

/// SHA-256 of `abc`, of FIPS 180-4.
const ABC: [u8; 32] = [
    0xba, 0x78, 0x16, 0xbf, 0x8f, 0x01, 0xcf, 0xea, 0x41, 0x41, 0x40, 0xde, 0x5d, 0xae, 0x22, 0x23,
    0xb0, 0x03, 0x61, 0xa3, 0x96, 0x17, 0x7a, 0x9c, 0xb4, 0x10, 0xff, 0x61, 0xf2, 0x00, 0x15, 0xad,
];

/// SHA-256 of the 41 bytes for the name `a` of version 0 in the root, as another program computes it.
const A_IN_ROOT: [u8; 32] = [
    0x41, 0x0e, 0xc5, 0xe8, 0x46, 0x67, 0xf2, 0x69, 0x08, 0xf6, 0x06, 0xf9, 0x0a, 0xe0, 0x32, 0xb1,
    0xdc, 0x4a, 0x7c, 0xa3, 0x87, 0x64, 0x92, 0x4c, 0x85, 0x8e, 0x9a, 0x4b, 0x5b, 0x19, 0x5f, 0xe9,
];

/// The same for the name `ab` of version 258 in the root.
const AB_IN_ROOT: [u8; 32] = [
    0x2c, 0x67, 0x70, 0x3e, 0x83, 0x49, 0x44, 0x02, 0x4b, 0x85, 0xd5, 0x91, 0x3b, 0xd7, 0x4e, 0xf4,
    0x69, 0xca, 0x87, 0x97, 0x48, 0x2f, 0xcc, 0x2a, 0x8c, 0xbd, 0xc0, 0xf2, 0x36, 0x71, 0x1d, 0x1f,
];

const WHOLE: ShaRule = ShaRule { bytes: 32 };

/// The first byte of SHA-256 of `abc`, and nothing else.
fn first_of_abc() -> Id {
    let mut bytes = [0; 32];
    bytes[0] = ABC[0];
    Id { bytes }
}

#[test]
fn digests(rt: HostRuntime) {
    assert_eq!(rt; WHOLE.digest(&[]), Id { bytes: ROOT });
    assert_eq!(rt; WHOLE.digest(b"abc"), Id { bytes: ABC });
    assert_eq!(rt; ShaRule { bytes: 1 }.digest(b"abc"), first_of_abc());
}

#[test]
fn identifies(rt: HostRuntime) -> Result<(), Fail> {
    let root = identify(rt.alloc(), &WHOLE, &Triple::Root)?;
    assert_eq!(rt; root, Id { bytes: ROOT });
    for (name, version, id) in [
        (b"a".as_slice(), 0, A_IN_ROOT),
        (b"ab".as_slice(), 258, AB_IN_ROOT),
    ] {
        let name = Name::from_slice(rt.alloc(), name)?;
        let triple = Triple::Of {
            parent: root,
            name,
            version,
        };
        assert_eq!(rt;
            identify(rt.alloc(), &WHOLE, &triple)?,
            Id { bytes: id },
            "at version {version}"
        );
    }
    Ok(())
}

#[test]
fn servers(rt: HostRuntime) {
    for (bytes, servers, server) in [
        (ROOT, 1, 0),
        (ROOT, 2, 0),
        (ROOT, 3, 1),
        (ROOT, 64, 20),
        (A_IN_ROOT, 3, 2),
        (A_IN_ROOT, 64, 41),
    ] {
        assert_eq!(rt; server_of(&Id { bytes }, servers), server, "of {servers}");
    }
}
