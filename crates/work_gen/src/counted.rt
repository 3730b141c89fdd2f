ghost use Rattle.std.specs.Prelude.{◌≡◌, ◌+◌, ◌*◌, ◌/◌, length};
ghost use Rattle.work_gen.specs.Workload.{workload};

/// How many lines the workload of n has.
pub fn line_count(n: u32) -> u64
    ensures lines { result ≡ length (workload n) }
    ensures sum { result ≡ 2 * n + 2 * (n / 10 + 1) + 8 }
{
    let turns = u64::from(n);
    2 * turns + 2 * (turns / 10 + 1) + 8
}
