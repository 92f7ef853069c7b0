//! Lists of numbers.

ghost use Rattle.std.specs.Prelude.{◌≡◌, ◌++◌, OnOk};
ghost use Rattle.rubis_carrier.specs.Events.{first_event, others, times, without};

use crate::faults::DeciderFault;

/// The first of them, or 0.
pub fn first(numbers: &[u64]) -> u64
    ensures { result ≡ first_event numbers.now }
{
    *numbers.first().unwrap_or(&0)
}

/// Takes the first away, if there is one.
pub fn remove_first(numbers: &mut Vec<u64>)
    ensures { numbers.new.items ≡ others numbers.old.items }
{
    if !numbers.is_empty() {
        numbers.remove(0);
    }
}

/// Takes the number away, as often as it is there.
pub fn remove_number(numbers: &mut Vec<u64>, number: u64)
    ensures { numbers.new.items ≡ without number numbers.old.items }
{
    numbers.retain(|other| *other != number);
}

/// Puts the number behind them, this many times.
pub fn push_times(numbers: &mut Vec<u64>, count: u64, number: u64) -> Result<(), DeciderFault>
    ensures { OnOk result (numbers.new.items ≡ numbers.old.items ++ times count number) }
{
    let mut done = 0;
    while done < count {
        numbers.push(number)?;
        done += 1;
    }
    Ok(())
}
