//! The least of some numbers.
ghost use Rattle.std.specs.Prelude.{◌≡◌};
ghost use Rattle.mem_store.specs.Least.{lesser};

/// The least number so far, where one item more passes a test or not.
pub fn lesser(passes: bool, number: u32, least: Option<u32>) -> Option<u32>
    ensures { result ≡ lesser passes number least }
{
    if !passes {
        return least;
    }
    match least {
        Some(other) => Some(number.min(other)),
        None => Some(number),
    }
}
