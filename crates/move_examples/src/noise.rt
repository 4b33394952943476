// Noise statements.
use crate::cases::{SMALL_NOISE, SQUARE_NOISE, WIDE_NOISE};
use crate::digits;
use crate::running::check_case;
use crate::stream::Stream;
use noise_statement::noise::Noise;
use statements::given::Given;
use std::test::Fail;

#[test]
fn small(rt: HostRuntime) -> Result<(), Fail> {
    let noise = Noise::new(Given {
        modulus: 2,
        rows: 4,
        columns: 2,
        bound: 1,
        matrix: &[1, 0, 0, 1, 1, 1, 1, 0],
        target: &[1, 1, 1, 1],
    })?;
    let mut stream = Stream::new(SMALL_NOISE.seed);
    check_case(&rt, rt.alloc(), &noise, &[1, 1], &mut stream, &SMALL_NOISE)
}

#[test]
fn square(rt: HostRuntime) -> Result<(), Fail> {
    let mut stream = Stream::new(SQUARE_NOISE.seed);
    let matrix = stream.residues(rt.alloc(), 16384, 2)?;
    let key = stream.bits::<128>();
    let text = SQUARE_NOISE.target;
    let target = digits::residues::<128>(text);
    let noise = Noise::new(Given {
        modulus: 2,
        rows: 128,
        columns: 128,
        bound: SQUARE_NOISE.bound,
        matrix: &matrix,
        target: &target,
    })?;
    check_case(&rt, rt.alloc(), &noise, &key, &mut stream, &SQUARE_NOISE)
}

// The longest free part.
#[test]
fn wide(rt: HostRuntime) -> Result<(), Fail> {
    let mut stream = Stream::new(WIDE_NOISE.seed);
    let matrix = stream.residues(rt.alloc(), 16384, 2)?;
    let key = stream.bits::<256>();
    let text = WIDE_NOISE.target;
    let target = digits::residues::<64>(text);
    let noise = Noise::new(Given {
        modulus: 2,
        rows: 64,
        columns: 256,
        bound: WIDE_NOISE.bound,
        matrix: &matrix,
        target: &target,
    })?;
    check_case(&rt, rt.alloc(), &noise, &key, &mut stream, &WIDE_NOISE)
}
