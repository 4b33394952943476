// Noise statements: the worked example, and each refusal.
use crate::number;
use noise_statement::noise::Noise;
use relation::Relation;
use statements::given::Given;

const EXAMPLE: Given<'static> = Given {
    modulus: 2,
    rows: 4,
    columns: 2,
    bound: 1,
    matrix: &[1, 0, 0, 1, 1, 1, 1, 0],
    target: &[1, 1, 1, 1],
};

fn making(given: Given<'static>) -> u8 {
    number(Noise::new(given))
}

fn split(key: &[u8]) -> (u8, [u16; 4], [u16; 2]) {
    crate::split(Noise::new(EXAMPLE), key)
}

fn gather(layer: &[u16], free: &[u16]) -> (u8, [u8; 2]) {
    crate::gather(Noise::new(EXAMPLE), layer, free, 9)
}

fn image(layer: &[u16], free: &[u16]) -> (u8, [u16; 4]) {
    crate::image(Noise::new(EXAMPLE), layer, free)
}

#[test]
fn keys_are_taken_or_refused(rt: HostRuntime) {
    assert_eq!(rt; split(&[1, 1]), (0, [0, 0, 1, 0], [1, 1]));
    assert_eq!(rt; split(&[1, 0]), (0, [0, 1, 0, 0], [1, 0]));
    assert_eq!(rt; split(&[1]), (21, [9; 4], [9; 2]));
    assert_eq!(rt; split(&[1, 2]), (22, [9; 4], [9; 2]));
    assert_eq!(rt; split(&[0, 0]), (23, [9; 4], [9; 2]));
    assert_eq!(rt; split(&[0, 1]), (23, [9; 4], [9; 2]));
}

#[test]
fn layers_give_the_key_back(rt: HostRuntime) {
    assert_eq!(rt; gather(&[0, 0, 1, 0], &[1, 1]), (0, [1, 1]));
    assert_eq!(rt; gather(&[0, 0, 1, 0], &[1]), (16, [9; 2]));
    assert_eq!(rt; gather(&[0, 1, 0, 0], &[1, 1]), (25, [9; 2]));
    assert_eq!(rt; gather(&[1, 1, 1, 1], &[0, 0]), (25, [9; 2]));
}

#[test]
fn layers_have_an_image(rt: HostRuntime) {
    assert_eq!(rt; image(&[0, 0, 1, 0], &[1, 1]), (0, [1, 1, 1, 1]));
    assert_eq!(rt; image(&[1, 1, 0, 0], &[0, 1]), (0, [1, 0, 1, 0]));
    assert_eq!(rt; image(&[0, 0, 1, 2], &[1, 1]), (16, [9; 4]));
}

#[test]
fn statements_are_taken_or_refused(rt: HostRuntime) {
    assert_eq!(rt;
        making(Given {
            bound: 4,
            ..EXAMPLE
        }),
        0
    );
    assert_eq!(rt; making(Given { rows: 0, ..EXAMPLE }), 11);
    assert_eq!(rt;
        making(Given {
            modulus: 3,
            ..EXAMPLE
        }),
        12
    );
    assert_eq!(rt;
        making(Given {
            bound: 5,
            ..EXAMPLE
        }),
        13
    );
    assert_eq!(rt; making(Given { rows: 3, ..EXAMPLE }), 14);
    assert_eq!(rt;
        making(Given {
            target: &[1, 1, 1, 2],
            ..EXAMPLE
        }),
        15
    );
}
