// How fast SHA-256 is: the digest of 64 MiB, in pieces of 64 KiB.
#![tactic(auto)]

use sha256::Sha256;
use std::io;

fn main(rt: HostRuntime) -> io::Result<()> {
    let piece = [0; 65536];
    let mut hasher = Sha256::new();
    for _ in 0..1024usize {
        if hasher.update(&piece).is_err() {
            return println!(rt; "too long");
        }
    }
    let [a, b, c, d, ..] = hasher.finish();
    println!(rt; "{a:02x} {b:02x} {c:02x} {d:02x}")
}
