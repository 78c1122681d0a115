//! How many items at the front of a slice pass a test.

ghost use Rattle.std.specs.Prelude.{◌≡◌, ◌≤◌, Bool, length};
ghost use Rattle.std.specs.Fn.{FnReturnsAt};
ghost use Rattle.std.specs.List as list;
ghost use Rattle.predictive_parsing.specs.Reads.{Computes};

/// How many items at the front pass the test.
pub fn prefix_len<I, F: Fn(&I) -> bool>(items: &[I], test: F) -> usize
    requires { F.IsAlwaysCallable test }
    ensures value { (passes : I → Bool) → Computes (FnReturnsAt F.Fn test) passes → result ≡ list.prefix_len passes items.now }
    ensures within { result ≤ length items.now }
{
    for (len, item) in items.iter().enumerate() {
        if !test(item) {
            return len;
        }
    }
    items.len()
}
