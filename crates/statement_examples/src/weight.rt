// Weight statements: the worked example, the borders, and each refusal.
use crate::number;
use relation::Relation;
use statements::given::Given;
use std::test::Fail;
use weight_statement::weight::Weight;

const EXAMPLE: Given<'static> = Given {
    modulus: 5,
    rows: 1,
    columns: 4,
    bound: 2,
    matrix: &[1, 2, 3, 4],
    target: &[0],
};

fn making(given: Given<'static>) -> u8 {
    number(Weight::new(given))
}

fn split(key: &[u8]) -> (u8, [u16; 4], [u16; 0]) {
    crate::split(Weight::new(EXAMPLE), key)
}

fn gather(layers: &[u16]) -> (u8, [u8; 4]) {
    crate::gather(Weight::new(EXAMPLE), layers, &[], 9)
}

fn image(layers: &[u16]) -> (u8, [u16; 1]) {
    crate::image(Weight::new(EXAMPLE), layers, &[])
}

#[test]
fn keys_are_taken_or_refused(rt: HostRuntime) {
    assert_eq!(rt; split(&[1, 0, 0, 1]), (0, [1, 0, 0, 1], []));
    assert_eq!(rt; split(&[0, 1, 1, 0]), (0, [0, 1, 1, 0], []));
    assert_eq!(rt; split(&[1, 0, 0]), (21, [9; 4], []));
    assert_eq!(rt; split(&[2, 0, 0, 0]), (22, [9; 4], []));
    assert_eq!(rt; split(&[1, 0, 0, 0]), (23, [9; 4], []));
    assert_eq!(rt; split(&[1, 1, 0, 0]), (24, [9; 4], []));
}

#[test]
fn layers_give_the_key_back(rt: HostRuntime) {
    assert_eq!(rt; gather(&[1, 0, 0, 1]), (0, [1, 0, 0, 1]));
    assert_eq!(rt; gather(&[1, 0, 1]), (16, [9; 4]));
    assert_eq!(rt; gather(&[0, 0, 1, 1]), (25, [9; 4]));
    assert_eq!(rt; gather(&[1, 1, 1, 1]), (25, [9; 4]));
}

#[test]
fn layers_have_an_image(rt: HostRuntime) {
    assert_eq!(rt; image(&[1, 2, 3, 4]), (0, [0]));
    assert_eq!(rt; image(&[1, 2, 3, 3]), (0, [1]));
    assert_eq!(rt; image(&[1, 2, 3, 5]), (16, [9]));
}

#[test]
fn statements_are_taken_or_refused(rt: HostRuntime) {
    assert_eq!(rt; making(EXAMPLE), 0);
    assert_eq!(rt;
        making(Given {
            rows: 128,
            columns: 129,
            ..EXAMPLE
        }),
        11
    );
    assert_eq!(rt;
        making(Given {
            modulus: 65536,
            ..EXAMPLE
        }),
        12
    );
    assert_eq!(rt;
        making(Given {
            bound: 5,
            ..EXAMPLE
        }),
        13
    );
    assert_eq!(rt;
        making(Given {
            target: &[],
            ..EXAMPLE
        }),
        14
    );
    assert_eq!(rt;
        making(Given {
            modulus: 4,
            ..EXAMPLE
        }),
        15
    );
}

#[test]
fn refused_statements_leave_the_old_one(rt: HostRuntime) -> Result<(), Fail> {
    let mut weight = Weight::new(EXAMPLE)?;
    assert_eq!(rt;
        number(weight.set(Given {
            modulus: 4,
            ..EXAMPLE
        })),
        15
    );
    assert_eq!(rt; weight.modulus(), 5);
    Ok(())
}

static MINUS_ONES: [u16; 16384] = [65534; 16384];

static MINUS_ONE: [u16; 64] = [65534; 64];

static MINUS_256: [u16; 64] = [65279; 64];

// 64 rows and 256 columns of −1, modulo the largest modulus.
const LARGEST: Given<'static> = Given {
    modulus: 65535,
    rows: 64,
    columns: 256,
    bound: 256,
    matrix: &MINUS_ONES,
    target: &MINUS_256,
};

#[test]
fn every_column_may_be_one(rt: HostRuntime) -> Result<(), Fail> {
    let weight = Weight::new(LARGEST)?;
    let mut layers = [0; 256];
    assert_eq!(rt; number(weight.split(&[1; 256], &mut layers, &mut [])), 0);
    assert_eq!(rt; layers, [1; 256]);
    Ok(())
}

#[test]
fn one_column_may_be_one(rt: HostRuntime) -> Result<(), Fail> {
    let weight = Weight::new(Given {
        bound: 1,
        target: &MINUS_ONE,
        ..LARGEST
    })?;
    let mut key = [0; 256];
    key[255] = 1;
    let mut layers = [0; 256];
    assert_eq!(rt; number(weight.split(&key, &mut layers, &mut [])), 0);
    let mut out = [0; 64];
    assert_eq!(rt; number(weight.image(&layers, &[], &mut out)), 0);
    assert_eq!(rt; out, MINUS_ONE);
    Ok(())
}
