//! Writes the sample script of any size: generators that go by numbers of their own, and a loop that drives each to its end.
#![tactic(auto)]

ghost use Rattle.std.specs.Prelude.{◌≡◌, ◌<◌, ◌≤◌, ◌-◌, ◌++◌, IfOk, OnOk, string_bytes, length};
ghost use Rattle.std.specs.List.{flat_map, range_with_len};
ghost use Rattle.sample_script.specs.Sample.{first_total, heading_text, generator_text, names_text, driver_text, sample};

use std::alloc::{AllocError, Global};

/// The sample script with n generators. It is no longer than a script may be.
#[tactic(auto, using(crate::proofs::Lengths::short), unfolding(crate::specs::Sample::sample))]
pub fn sample_script(alloc: Global, n: u32) -> Result<String, AllocError>
    requires low { 1 ≤ n }
    requires high { n ≤ 1000 }
    ensures text { IfOk result (λ script. string_bytes script ≡ sample n) }
    ensures length { IfOk result (λ script. length (string_bytes script) ≤ 262144) }
{
    let mut script = String::new(alloc);
    push_generators(&mut script, n)?;
    push_driver(&mut script, n)?;
    Ok(script)
}

// The generators, in order.
#[tactic(auto, using(crate::proofs::Writing::writing))]
fn push_generators(script: &mut String, n: u32) -> Result<(), AllocError>
    requires { n ≤ 1000 }
    ensures { OnOk result (string_bytes script.new ≡ string_bytes script.old ++ flat_map generator_text (range_with_len 0 n)) }
{
    for number in 0..n {
        push_generator(script, number)?;
    }
    Ok(())
}

#[tactic(auto, using(crate::proofs::Writing::writing))]
fn push_generator(script: &mut String, number: u32) -> Result<(), AllocError>
    requires { number < 1000 }
    ensures { OnOk result (string_bytes script.new ≡ string_bytes script.old ++ generator_text number) }
{
    push_heading(script, number)?;
    script.push_str(GENERATOR_LOOP)
}

// The first lines of a generator.
fn push_heading(script: &mut String, number: u32) -> Result<(), AllocError>
    requires { number < 1000 }
    ensures { OnOk result (string_bytes script.new ≡ string_bytes script.old ++ heading_text number) }
{
    let total = first_total_of(number);
    write!(script, "def g{number}(n):\n    t = {total}\n")
}

// What the total of a generator begins with.
fn first_total_of(number: u32) -> u32
    requires { number < 1000 }
    ensures { result ≡ first_total number }
{
    (37 * number + 11) % 101
}

// What all generators share.
const GENERATOR_LOOP: &str = "    for i in range(n):
        try:
            t += yield t * i
        finally:
            t += 1
    return t
";

// The lines that drive the generators.
#[tactic(auto, using(crate::proofs::Writing::writing))]
fn push_driver(script: &mut String, n: u32) -> Result<(), AllocError>
    requires { 1 ≤ n }
    ensures { OnOk result (string_bytes script.new ≡ string_bytes script.old ++ driver_text n) }
{
    script.push_str("s = 0\nfor f in [")?;
    push_names(script, n)?;
    script.push_str(DRIVER_LOOP)
}

// The names of the generators, with a comma and a space between two.
#[tactic(auto, using(crate::proofs::Writing::writing))]
fn push_names(script: &mut String, n: u32) -> Result<(), AllocError>
    requires { 1 ≤ n }
    ensures { OnOk result (string_bytes script.new ≡ string_bytes script.old ++ names_text n) }
{
    script.push_str("g0")?;
    for number in 1..n {
        write!(script, ", g{number}")?;
    }
    Ok(())
}

// What is done with each generator, and the last line.
const DRIVER_LOOP: &str = "]:
    h = f(3)
    v = next(h)
    while True:
        s += v
        try:
            v = h.send(v % 7)
        except StopIteration as e:
            s += e.value
            break
print(s)
";
