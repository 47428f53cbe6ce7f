// The copies that a work step uses, in a lent list: their count, then their numbers, in the order of use. They become read items
// at the end of the step.
ghost use Rattle.std.specs.Prelude.{◌≡◌, ◌<◌, length, get_or};
ghost use Rattle.client.specs.Run.{among};
ghost use Rattle.client.specs.Lent.{Lent, used_in, pushed};

// Their numbers.
pub fn in_use(used: &[u64]) -> &[u64]
    requires { get_or used.now 0 0 < length used.now }
    ensures { result.now ≡ used_in used.now }
{
    &used[1..used[0] as usize + 1]
}

pub fn is_used(used: &[u64], number: u64) -> bool
    requires { Lent used.now }
    ensures { result ≡ among number (used_in used.now) }
{
    in_use(used).contains(&number)
}

pub fn push_used(used: &mut [u64], number: u64)
    requires { Lent used.old }
    ensures { used.new ≡ pushed used.old number }
{
    let n = used[0];
    used[n as usize + 1] = number;
    used[0] = n + 1;
}
