//! Whole runs with paths of several names.

use crate::trial::expect_report;
use std::test::Fail;

/// The directory in which a file is asked about goes, between its lookup and the message behind the round.
const GOING: &[u8] = b"infinifs 1\n\
      servers 2\n\
      client a 0 0\n\
      client c 0 0\n\
      call a mkdir /a 777\n\
      call c mkdir /a/b 777\n\
      call a stat /a\n\
      call a stat /a/b/a\n\
      call c rmdir /a/b\n\
      order =a =a =c +a +a +a s1:a =c *\n\
      end\n";

/// The second attempt stops at its name.
const GOING_REPORT: &[u8] = b"infinifs report 1\n\
      servers 2\n\
      digest-bytes 32\n\
      cache 256\n\
      client a 0 0\n\
      client c 0 0\n\
      calls 5\n\
      8 a.1 mkdir /a 777 = done first 1 last 8 attempts 1 rounds 1 messages 4\n\
      12 a.2 stat /a = stat dir 777 0 0 0 first 9 last 12 attempts 1 rounds 1 messages 2\n\
      22 c.1 mkdir /a/b 777 = done first 13 last 22 attempts 1 rounds 1 messages 5\n\
      36 c.2 rmdir /a/b = done first 27 last 38 attempts 1 rounds 1 messages 6\n\
      50 a.3 stat /a/b/a = refused ENOENT first 23 last 50 attempts 2 rounds 2 messages 8\n\
      events 50\n\
      1 ask a.1 s0 lookup top\n\
      2 serve s0 1 found top @#0 755 0 0 root\n\
      3 ask a.1 s0 reserve 2 a\n\
      4 serve s0 3 reserved 0\n\
      5 ask a.1 s1 make @/a/0\n\
      6 serve s1 5 fine\n\
      7 ask a.1 s0 link 2 a %#5 777\n\
      8 serve s0 7 fine\n\
      9 ask a.2 s0 lookup top\n\
      10 serve s0 9 found top @#0 755 0 0 root\n\
      11 ask a.2 s0 finish 10 stat a\n\
      12 serve s0 11 stat dir 777 0 0 0\n\
      13 ask c.1 s0 lookup top\n\
      14 ask c.1 s0 lookup @ a\n\
      15 serve s0 13 found top @#0 755 0 0 root\n\
      16 serve s0 14 found @#0/a %#5 777 0 0 @/a/0\n\
      17 ask c.1 s1 reserve 15,16 b\n\
      18 serve s1 17 reserved 0\n\
      19 ask c.1 s0 make %/b/0\n\
      20 serve s0 19 fine\n\
      21 ask c.1 s1 link 15,16 b &#19 777\n\
      22 serve s1 21 fine\n\
      23 ask a.3 s0 lookup top\n\
      24 ask a.3 s0 lookup @ a\n\
      25 ask a.3 s1 lookup % b\n\
      26 serve s1 25 found %#5/b &#19 777 0 0 %/b/0\n\
      27 ask c.2 s0 lookup top\n\
      28 ask c.2 s0 lookup @ a\n\
      29 ask c.2 s1 lookup % b\n\
      30 serve s0 27 found top @#0 755 0 0 root\n\
      31 serve s0 28 found @#0/a %#5 777 0 0 @/a/0\n\
      32 serve s1 29 found %#5/b &#19 777 0 0 %/b/0\n\
      33 ask c.2 s0 seal 30,31,32\n\
      34 serve s0 33 fine\n\
      35 ask c.2 s1 unlink 30,31,32\n\
      36 serve s1 35 fine\n\
      37 ask c.2 s0 drop &#19\n\
      38 serve s0 37 fine\n\
      39 serve s0 23 found top @#0 755 0 0 root\n\
      40 serve s0 24 found @#0/a %#5 777 0 0 @/a/0\n\
      41 ask a.3 s0 finish 39,40,26 stat a\n\
      42 serve s0 41 gone\n\
      43 ask a.3 s0 lookup top\n\
      44 ask a.3 s0 lookup @ a\n\
      45 ask a.3 s1 lookup % b\n\
      46 serve s0 43 found top @#0 755 0 0 root\n\
      47 serve s0 44 found @#0/a %#5 777 0 0 @/a/0\n\
      48 serve s1 45 absent 5\n\
      49 ask a.3 s1 finish 46,47 walk b\n\
      50 serve s1 49 refused ENOENT\n\
      end\n";

#[test]
fn a_directory_goes_under_a_path(rt: HostRuntime) -> Result<(), Fail> {
    expect_report(&rt, rt.alloc(), GOING, GOING_REPORT)
}
