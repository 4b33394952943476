// Short statements.
use crate::cases::{LARGE_SHORT, SMALL_SHORT};
use crate::digits;
use crate::running::check_case;
use crate::stream::Stream;
use short_statement::short::Short;
use statements::given::Given;
use std::test::Fail;

#[test]
fn small(rt: HostRuntime) -> Result<(), Fail> {
    let short = Short::new(Given {
        modulus: 11,
        rows: 1,
        columns: 2,
        bound: 5,
        matrix: &[1, 2],
        target: &[10],
    })?;
    let mut stream = Stream::new(SMALL_SHORT.seed);
    check_case(&rt, rt.alloc(), &short, &[5, -3], &mut stream, &SMALL_SHORT)
}

// The largest sizes: 15 layers of 768 entries.
#[test]
fn large(rt: HostRuntime) -> Result<(), Fail> {
    let mut stream = Stream::new(LARGE_SHORT.seed);
    let matrix = stream.residues(rt.alloc(), 16384, 65535)?;
    let mut key = stream.short_key::<256>();
    key[0] = 32767;
    key[1] = -32767;
    let text = LARGE_SHORT.target;
    let target = digits::residues::<64>(text);
    let short = Short::new(Given {
        modulus: 65535,
        rows: 64,
        columns: 256,
        bound: LARGE_SHORT.bound,
        matrix: &matrix,
        target: &target,
    })?;
    check_case(&rt, rt.alloc(), &short, &key, &mut stream, &LARGE_SHORT)
}
