// The lines whose numbers are drawn.
ghost use Rattle.std.specs.Prelude.{◌≡◌};
ghost use Rattle.work_gen.specs.Draws.{state_after, draw};
ghost use Rattle.work_gen.specs.Workload.{point_line, segment_line, rank_line, filter_line};

use crate::generator::Generator;
use crate::line::Line;

// A place and its population, by three draws.
#[tactic(auto, unfolding(crate::specs::Workload::point_line))]
pub(crate) fn write_point(generator: &mut Generator, line: &mut Line)
    ensures state { generator.new.state ≡ state_after 3 generator.old.state }
    ensures text { let s = generator.old.state in
        line.new ≡ point_line (draw 1 s) (draw 2 s) (draw 3 s) }
{
    let (x, y, pop) = (generator.draw(), generator.draw(), generator.draw());
    line.begin("insert p ");
    line.spot(x, y);
    line.text(", ");
    line.number(pop);
}

// A way from a place, by four draws: each coordinate of its end is at most 255 beyond the first one's.
#[tactic(auto, unfolding(crate::specs::Workload::segment_line))]
pub(crate) fn write_segment(generator: &mut Generator, line: &mut Line)
    ensures state { generator.new.state ≡ state_after 4 generator.old.state }
    ensures text { let s = generator.old.state in
        line.new ≡ segment_line (draw 1 s) (draw 2 s) (draw 3 s) (draw 4 s) }
{
    let (x, y) = (generator.draw(), generator.draw());
    let (e, f) = (generator.draw(), generator.draw());
    line.begin("insert s ");
    line.spot(x, y);
    line.text("-");
    line.spot(x.saturating_add(e % 256), y.saturating_add(f % 256));
}

// A ranking from a point, by two draws.
#[tactic(auto, unfolding(crate::specs::Workload::rank_line))]
pub(crate) fn write_rank(generator: &mut Generator, line: &mut Line)
    ensures state { generator.new.state ≡ state_after 2 generator.old.state }
    ensures text { let s = generator.old.state in line.new ≡ rank_line (draw 1 s) (draw 2 s) }
{
    let (x, y) = (generator.draw(), generator.draw());
    line.begin("show 10 rank p.at from ");
    line.spot(x, y);
}

// A ranking of the places with at least some population, by three draws.
#[tactic(auto, unfolding(crate::specs::Workload::filter_line))]
pub(crate) fn write_filter(generator: &mut Generator, line: &mut Line)
    ensures state { generator.new.state ≡ state_after 3 generator.old.state }
    ensures text { let s = generator.old.state in
        line.new ≡ filter_line (draw 1 s) (draw 2 s) (draw 3 s) }
{
    let (x, y, pop) = (generator.draw(), generator.draw(), generator.draw());
    line.begin("show 3 filter (rank p.at from ");
    line.spot(x, y);
    line.text(") where 1.pop >= ");
    line.number(pop);
}
