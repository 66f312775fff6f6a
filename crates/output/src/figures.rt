// The figures of an answer: the largest finish and the worst lateness.
ghost use Rattle.std.specs.Prelude.{◌≡◌, map, ℕ, ◌≤◌, ◌<◌, pos, length, get_or};
ghost use Rattle.rules.specs.Words.{greatest, worst_of, below};
ghost use Rattle.rules.specs.Tables.{finishes_of};
ghost use Rattle.output.specs.Late.{Bounded, lateness_in};

use numbers::lateness;
use rules::Span;

/// The largest finish of so many pieces; 0 with no pieces.
pub fn largest_finish(pieces: usize, spans: &[Span; 256]) -> u32
    requires { pieces ≤ 256 }
    ensures { result ≡ greatest 0 (map (λ i. get_or (finishes_of spans.now) i 0) (below pieces)) }
{
    let mut end = 0u32;
    for i in 0..pieces {
        end = end.max(spans[i].finish);
    }
    end
}

/// The worst (greatest) lateness; 0 with no pieces.
pub fn worst_lateness(pieces: usize, spans: &[Span; 256], latests: &[i32; 256]) -> i32
    requires few { pieces ≤ 256 }
    requires bounded { (i : ℕ) → i < pieces
        → Bounded (get_or (finishes_of spans.now) i 0) (get_or latests.now i (pos 0)) }
    ensures { result ≡ worst_of (map (lateness_in (finishes_of spans.now) latests.now) (below pieces)) }
{
    if pieces == 0 {
        return 0;
    }
    let mut worst = lateness(spans[0].finish, latests[0]);
    for i in 1..pieces {
        worst = worst.max(lateness(spans[i].finish, latests[i]));
    }
    worst
}
