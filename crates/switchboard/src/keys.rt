// Makes one statement of each kind, tries right and wrong keys, splits a key into layers and gathers it again.
use crate::text::{show_numbers, show_outcome};
use noise_statement::noise::Noise;
use relation::Relation;
use short_statement::short::Short;
use statements::given::Given;
use weight_statement::weight::Weight;

pub fn run(rt: &HostRuntime) -> anyhow::Result<()> {
    weight(rt)?;
    short(rt)?;
    noise(rt)
}

fn weight(rt: &HostRuntime) -> anyhow::Result<()> {
    println!(rt; "weight statement: modulus 5, matrix (1 2 3 4), target 0, two ones")?;
    show_outcome(
        rt,
        "  modulus 65,536 in place of 5",
        Weight::new(weight_given(65536)),
    )?;
    let statement = Weight::new(weight_given(5))?;
    show_outcome(rt, "  the statement", Ok(()))?;
    for (name, key) in [
        ("key 1001", [1, 0, 0, 1]),
        ("key 1100", [1, 1, 0, 0]),
        ("key 1000", [1, 0, 0, 0]),
        ("key 2000", [2, 0, 0, 0]),
    ] {
        show_split(rt, name, &statement, &key, &mut [0; 4], &mut [])?;
    }
    let mut key = [0u8; 4];
    show_outcome(
        rt,
        "  gathering the layer 0 1 1 0",
        statement.gather(&[0, 1, 1, 0], &[], &mut key),
    )?;
    let [a, b, c, d] = key;
    println!(rt; "  the key is {a}{b}{c}{d}")?;
    Ok(())
}

pub fn weight_given(modulus: usize) -> Given<'static> {
    Given {
        modulus,
        rows: 1,
        columns: 4,
        bound: 2,
        matrix: &[1, 2, 3, 4],
        target: &[0],
    }
}

fn short(rt: &HostRuntime) -> anyhow::Result<()> {
    println!(rt; "short statement: modulus 11, matrix (1 2), target 10, sizes up to 5")?;
    let statement = Short::new(short_given())?;
    show_outcome(rt, "  the statement", Ok(()))?;
    let mut layers = [0u16; 18];
    show_split(
        rt,
        "key (5, -3)",
        &statement,
        &[5, -3],
        &mut layers,
        &mut [],
    )?;
    show_split(rt, "key (6, 2)", &statement, &[6, 2], &mut [0; 18], &mut [])?;
    let mut key = [0i32; 2];
    show_outcome(
        rt,
        "  gathering those layers",
        statement.gather(&layers, &[], &mut key),
    )?;
    let [a, b] = key;
    println!(rt; "  the key is ({a}, {b})")?;
    Ok(())
}

pub fn short_given() -> Given<'static> {
    Given {
        modulus: 11,
        rows: 1,
        columns: 2,
        bound: 5,
        matrix: &[1, 2],
        target: &[10],
    }
}

fn noise(rt: &HostRuntime) -> anyhow::Result<()> {
    println!(rt; "noise statement: rows 10, 01, 11, 10, target 1111, one difference")?;
    let statement = Noise::new(noise_given())?;
    show_outcome(rt, "  the statement", Ok(()))?;
    for (name, key) in [("key 11", [1, 1]), ("key 10", [1, 0]), ("key 01", [0, 1])] {
        show_split(rt, name, &statement, &key, &mut [0; 4], &mut [0; 2])?;
    }
    Ok(())
}

pub fn noise_given() -> Given<'static> {
    Given {
        modulus: 2,
        rows: 4,
        columns: 2,
        bound: 1,
        matrix: &[1, 0, 0, 1, 1, 1, 1, 0],
        target: &[1, 1, 1, 1],
    }
}

// Splits the key and prints its layers and its free part, or the refusal.
fn show_split<R: Relation>(
    rt: &HostRuntime,
    name: &str,
    statement: &R,
    key: &[R::Entry],
    layers: &mut [u16],
    free: &mut [u16],
) -> anyhow::Result<()> {
    match statement.split(key, layers, free) {
        Ok(()) => {
            println!(rt; "  {name}: a key of the statement")?;
            show_numbers(rt, "layers", layers)?;
            if !free.is_empty() {
                show_numbers(rt, "free part", free)?;
            }
        }
        Err(refusal) => println!(rt; "  {name}: refused by {refusal}")?,
    }
    Ok(())
}
