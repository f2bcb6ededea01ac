ghost use Rattle.std.specs.Prelude.{◌<◌};

use crate::trial::run;
use std::alloc::Global;
use std::test::Fail;

const DIRECTORIES: u32 = 257;

/// For each directory the first whose identifier of one byte is the same: itself, or that with which it clashes. By
/// SHA-256, apart from this program: the byte is the first of the digest of e3, 39 zeros and the name.
const BEARERS: [u32; 257] = [
    0, 1, 2, 3, 4, 5, 6, 7, 8, 9, 10, 11, 12, 13, 14, 15, 16, 17, 18, 19, 8, 21, 22, 23, 24, 25,
    26, 27, 28, 29, 30, 31, 32, 33, 12, 35, 36, 37, 38, 39, 40, 41, 42, 43, 44, 45, 16, 30, 48, 49,
    6, 6, 52, 53, 54, 55, 56, 2, 58, 59, 3, 61, 62, 63, 29, 65, 29, 62, 68, 62, 70, 62, 72, 73, 74,
    75, 17, 77, 23, 79, 80, 62, 82, 83, 84, 85, 10, 87, 88, 74, 90, 63, 92, 93, 94, 95, 96, 97, 98,
    99, 100, 101, 102, 16, 104, 3, 48, 107, 14, 109, 96, 111, 73, 113, 114, 115, 116, 73, 87, 119,
    3, 121, 68, 123, 45, 125, 87, 127, 100, 129, 130, 111, 132, 133, 134, 72, 28, 137, 10, 8, 140,
    141, 97, 114, 144, 145, 146, 147, 148, 82, 150, 151, 152, 25, 38, 155, 156, 42, 158, 159, 99,
    161, 162, 4, 164, 165, 14, 167, 168, 23, 170, 171, 97, 145, 146, 175, 176, 177, 178, 179, 180,
    181, 97, 183, 82, 164, 186, 133, 141, 189, 190, 191, 192, 170, 1, 39, 80, 197, 198, 199, 58,
    201, 63, 130, 204, 205, 170, 21, 29, 183, 96, 211, 140, 148, 19, 215, 179, 217, 21, 84, 220,
    221, 222, 11, 92, 225, 226, 145, 228, 116, 215, 231, 162, 65, 234, 235, 63, 237, 234, 12, 40,
    217, 36, 237, 244, 11, 246, 247, 15, 27, 156, 159, 252, 253, 254, 32, 44,
];

/// Of the root's identifier one byte is kept too, and the first directory has the same.
const FRONT: &[u8] = b"infinifs report 1\n\
      servers 1\n\
      digest-bytes 1\n\
      cache 256\n\
      client a 0 0\n\
      calls 257\n\
      6 a.1 mkdir /d0 755 = clash \
      e300000000000000000000000000000000000000000000000000000000000000/d0/0 root \
      first 1 last 8 attempts 1 rounds 1 messages 4\n";

/// One client makes the directories d0, d1 and so on.
fn script(alloc: Global) -> Result<Vec<u8>, Fail> {
    let mut text = b"infinifs 1\ndigest-bytes 1\nclient a 0 0\n".to_vec(alloc)?;
    for i in 0..DIRECTORIES {
        let call = format!(in alloc; "call a mkdir /d{i} 755\n")?;
        text.extend_from_slice(call.as_bytes())?;
    }
    text.extend_from_slice(b"end\n")?;
    Ok(text)
}

fn answer(alloc: Global, i: u32, bearer: u32) -> Result<String, Fail> {
    if bearer == i {
        return Ok(String::from_str(alloc, "done")?);
    }
    let root = "e300000000000000000000000000000000000000000000000000000000000000";
    Ok(format!(in alloc; "clash {root}/d{i}/0 {root}/d{bearer}/0")?)
}

/// Each call makes four asks. The third makes the directory or clashes; the fourth links the one that was made, or
/// lifts the name that was reserved.
fn line(alloc: Global, i: u32, bearer: u32) -> Result<String, Fail>
    requires { i < DIRECTORIES }
{
    let number = i + 1;
    let first = 8 * i + 1;
    let last = 8 * i + 8;
    let place = if bearer == i { last } else { last - 2 };
    let answer = answer(alloc, i, bearer)?;
    let call = format!(in alloc; "{place} a.{number} mkdir /d{i} 755 = {answer}")?;
    Ok(format!(in alloc; "{call} first {first} last {last} attempts 1 rounds 1 messages 4\n")?)
}

#[test]
fn identifiers_of_one_byte_clash(rt: HostRuntime) -> Result<(), Fail> {
    let mut front = FRONT.to_vec(rt.alloc())?;
    for i in 1..DIRECTORIES {
        let line = line(rt.alloc(), i, BEARERS[i as usize])?;
        front.extend_from_slice(line.as_bytes())?;
    }
    front.extend_from_slice(b"events 2056\n")?;
    let script = script(rt.alloc())?;
    let sink = run(&rt, rt.alloc(), &script)?;
    assert!(rt; sink.held().starts_with(&front));
    Ok(())
}
