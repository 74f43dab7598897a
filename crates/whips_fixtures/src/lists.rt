//! Lists from slices.
ghost use Rattle.std.specs.Prelude.{◌≡◌, length, IfOk};

use std::alloc::Global;
use whips_rel::NoMemory;

/// These numbers.
pub fn numbers(alloc: Global, items: &[u32]) -> Result<Vec<u32>, NoMemory>
    ensures { IfOk result (λ v. v.items ≡ items.now) }
{
    Ok(Vec::from_slice(alloc, items)?)
}

/// These numbers of 64 bits.
pub fn words(alloc: Global, items: &[u64]) -> Result<Vec<u64>, NoMemory>
    ensures { IfOk result (λ v. v.items ≡ items.now) }
{
    Ok(Vec::from_slice(alloc, items)?)
}

/// These texts, as owned ones.
pub fn texts(alloc: Global, items: &[&str]) -> Result<Vec<String>, NoMemory> {
    let mut owned = Vec::new(alloc);
    for item in items {
        owned.push(String::from_str(alloc, item)?)?;
    }
    Ok(owned)
}
