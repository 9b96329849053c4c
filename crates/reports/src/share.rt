// Shares per mille.
ghost use Rattle.std.specs.Prelude.{◌≡◌};
ghost use Rattle.reports.specs.Share.{share};

// How many vertices in a thousand are kept, rounded down, where so many of n are: 0 where n is 0, and at most the largest number.
pub fn share(kept: usize, n: usize) -> usize
    ensures { result ≡ share kept n }
{
    if n == 0 {
        return 0;
    }
    let shared = kept as u128 * 1000 / n as u128;
    shared.min(usize::MAX as u128) as usize
}
