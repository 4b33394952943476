// Weight statements.
use crate::cases::{LARGE_WEIGHT, SMALL_WEIGHT};
use crate::digits;
use crate::running::check_case;
use crate::stream::Stream;
use statements::given::Given;
use std::test::Fail;
use weight_statement::weight::Weight;

#[test]
fn small(rt: HostRuntime) -> Result<(), Fail> {
    let weight = Weight::new(Given {
        modulus: 5,
        rows: 1,
        columns: 4,
        bound: 2,
        matrix: &[1, 2, 3, 4],
        target: &[0],
    })?;
    let mut stream = Stream::new(SMALL_WEIGHT.seed);
    check_case(
        &rt,
        rt.alloc(),
        &weight,
        &[1, 0, 0, 1],
        &mut stream,
        &SMALL_WEIGHT,
    )
}

#[test]
fn large(rt: HostRuntime) -> Result<(), Fail> {
    let mut stream = Stream::new(LARGE_WEIGHT.seed);
    let matrix = stream.residues(rt.alloc(), 16384, 65535)?;
    let key = stream.bits::<256>();
    let text = LARGE_WEIGHT.target;
    let target = digits::residues::<64>(text);
    let weight = Weight::new(Given {
        modulus: 65535,
        rows: 64,
        columns: 256,
        bound: LARGE_WEIGHT.bound,
        matrix: &matrix,
        target: &target,
    })?;
    check_case(&rt, rt.alloc(), &weight, &key, &mut stream, &LARGE_WEIGHT)
}
