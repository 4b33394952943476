// Short statements: the worked example, the borders, and each refusal.
use crate::number;
use relation::Relation;
use short_statement::short::Short;
use statements::given::Given;

const EXAMPLE: Given<'static> = Given {
    modulus: 11,
    rows: 1,
    columns: 2,
    bound: 5,
    matrix: &[1, 2],
    target: &[10],
};

// The layers of the key (5, −3).
const LAYERS: [u16; 18] = [1, 10, 10, 0, 0, 1, 0, 10, 10, 0, 1, 1, 1, 0, 10, 10, 0, 1];

fn making(given: Given<'static>) -> u8 {
    number(Short::new(given))
}

fn split(key: &[i32]) -> (u8, [u16; 18], [u16; 0]) {
    crate::split(Short::new(EXAMPLE), key)
}

fn gather(layers: &[u16]) -> (u8, [i32; 2]) {
    crate::gather(Short::new(EXAMPLE), layers, &[], 9)
}

fn image(layers: &[u16], free: &[u16]) -> (u8, [u16; 1]) {
    crate::image(Short::new(EXAMPLE), layers, free)
}

#[test]
fn keys_are_taken_or_refused(rt: HostRuntime) {
    assert_eq!(rt; split(&[5, -3]), (0, LAYERS, []));
    assert_eq!(rt; split(&[5, -3, 0]), (21, [9; 18], []));
    assert_eq!(rt; split(&[6, -3]), (22, [9; 18], []));
    assert_eq!(rt; split(&[0, -2147483648]), (22, [9; 18], []));
    assert_eq!(rt; split(&[5, 3]), (24, [9; 18], []));
}

#[test]
fn layers_give_the_key_back(rt: HostRuntime) {
    assert_eq!(rt; gather(&LAYERS), (0, [5, -3]));
    assert_eq!(rt; gather(&LAYERS[0..12]), (16, [9; 2]));
    assert_eq!(rt; gather(&[1; 18]), (25, [9; 2]));
    assert_eq!(rt;
        gather(&[0, 10, 10, 0, 1, 1, 0, 10, 10, 0, 1, 1, 1, 0, 10, 10, 0, 1]),
        (25, [9; 2])
    );
}

#[test]
fn layers_have_an_image(rt: HostRuntime) {
    assert_eq!(rt; image(&LAYERS, &[]), (0, [10]));
    assert_eq!(rt; image(&LAYERS, &[0]), (16, [9]));
}

#[test]
fn statements_are_taken_or_refused(rt: HostRuntime) {
    assert_eq!(rt; making(EXAMPLE), 0);
    assert_eq!(rt;
        making(Given {
            columns: 0,
            ..EXAMPLE
        }),
        11
    );
    assert_eq!(rt;
        making(Given {
            modulus: 2,
            ..EXAMPLE
        }),
        12
    );
    assert_eq!(rt;
        making(Given {
            bound: 32768,
            ..EXAMPLE
        }),
        13
    );
    assert_eq!(rt;
        making(Given {
            columns: 3,
            ..EXAMPLE
        }),
        14
    );
    assert_eq!(rt;
        making(Given {
            target: &[11],
            ..EXAMPLE
        }),
        15
    );
}

static MINUS_ONES: [u16; 256] = [65534; 256];

// 256 columns of −1, modulo the largest modulus, with the largest entries.
const LARGEST: Given<'static> = Given {
    modulus: 65535,
    rows: 1,
    columns: 256,
    bound: 32767,
    matrix: &MINUS_ONES,
    target: &[128],
};

// Splits the key into 15 layers, and gathers these.
fn back(given: Given<'static>, key: &[i32]) -> (u8, [i32; 256]) {
    let Ok(short) = Short::new(given) else {
        return (1, [0; 256]);
    };
    let mut layers = [0; 11520];
    let mut gathered = [0; 256];
    if short.split(key, &mut layers, &mut []).is_err() {
        return (1, gathered);
    }
    let answer = short.gather(&layers, &[], &mut gathered);
    (number(answer), gathered)
}

#[test]
fn largest_keys_come_back(rt: HostRuntime) {
    assert_eq!(rt; back(LARGEST, &[32767; 256]), (0, [32767; 256]));
    assert_eq!(rt;
        back(
            Given {
                target: &[65407],
                ..LARGEST
            },
            &[-32767; 256],
        ),
        (0, [-32767; 256])
    );
}
