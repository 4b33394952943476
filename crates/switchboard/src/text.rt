// Answers and numbers as text.
use refusals::refusal::Refusal;

pub fn yes_or_no(answer: bool) -> &'static str {
    if answer { "yes" } else { "no" }
}

// Prints a name and then the numbers, with spaces between.
pub fn show_numbers(rt: &HostRuntime, name: &str, numbers: &[u16]) -> anyhow::Result<()> {
    print!(rt; "    {name}:")?;
    for number in numbers {
        print!(rt; " {number}")?;
    }
    println!(rt; "")?;
    Ok(())
}

// Prints whether a call took what it was given, or its refusal.
pub fn show_outcome<T: Drop>(
    rt: &HostRuntime,
    what: &str,
    outcome: Result<T, Refusal>,
) -> anyhow::Result<()> {
    match outcome {
        Ok(_) => println!(rt; "{what}: taken")?,
        Err(refusal) => println!(rt; "{what}: refused by {refusal}")?,
    }
    Ok(())
}

// The first bytes, or all where there are fewer.
pub fn front(bytes: &[u8], len: usize) -> &[u8] {
    bytes.get(0..len).unwrap_or(bytes)
}
