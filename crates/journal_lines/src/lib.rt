// What the programs print of a replay.
#![tactic(auto)]

ghost use Rattle.std.specs.Prelude.{◌≡◌, IfSome};
ghost use Rattle.report.specs.Report.{lines_of};

use feeding::Replay;

// The lines of a replay, at the start of a lent array. There are none where the report refuses.
pub fn of(replay: Replay, out: &mut [u8; 512]) -> Option<&[u8]>
    ensures { IfSome result (λ lines. lines.now ≡ lines_of replay) }
{
    let Ok(size) = report::print(replay, out) else {
        return None;
    };
    out.get(..size)
}
