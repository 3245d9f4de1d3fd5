// What C and Rust call, for either style: for `panel_c`, which gives each call its style and its name. No `requires`.
// Each call puts three words of a refusal into `refusal`: its number, its place, and at 24 which buffer was short, 1 the output (of moves: the kinds), 2 the answers, 3 the numbers of moves or 4 the list of vertices; all 0 for none.
#![tactic(auto)]

ghost use Rattle.std.specs.Prelude.{◌≡◌, ℕ, List};
ghost use Rattle.rules.specs.declared.Style.{Style};
ghost use Rattle.rules.specs.Refusals.{Result as ResultOf};
ghost use Rattle.rules.specs.Points.{Drawing as Plan};
ghost use Rattle.rules.specs.DrawingFile.{draw_file, order_back};
ghost use Rattle.store_tables.specs.Tables.{blank};
ghost use Rattle.panel_words.specs.Words.{buffer_number, no_buffer, output_buffer, answers_buffer};
ghost use Rattle.panel_asked.specs.Asking.{Drew, HasDrawing, asks};
ghost use Rattle.panel_doors.specs.Sources.{OrderGives, CallsGive};
ghost use Rattle.panel_doors.specs.Exported.{Exported, FileTold};
ghost use Rattle.panel_doors.specs.Asked.{Asked};
ghost use Rattle.panel_doors.specs.Moves.{MovesTold};
ghost use Rattle.panel_doors.specs.Imports.{ImportTold};

use panel_asked::Question;
use panel_words::Buffer;
use rules::{Answer, Style};
use store_tables::Drawing;
use tool::Tool;

// Where a drawing comes from. What it answers on the way goes into `answers`; and it says which buffer of its own it can find too short, if any.
// `answers` stays a parameter: as a field of `Calls` the exported functions had no proof of what the buffer holds after the call.
pub trait Source: Drop {
    ghost gives: { Style → Self → List ℕ → List ℕ → ResultOf Plan → Type 0 };

    ghost short: { ℕ };

    fn short(&self) -> Option<Buffer>
        ensures { buffer_number result ≡ short };

    fn draw_in(&self, style: Style, d: &mut Drawing, answers: &mut [u16]) -> Answer<()>
        requires { d.old ≡ blank }
        ensures has { HasDrawing result d.new }
        ensures drew { (o : ResultOf Plan) × gives style self.now answers.old answers.new o × Drew o d.new result };
}

// An order file, which has no answers.
#[derive(Clone, Copy, Debug, PartialEq, Eq)]
pub struct OrderFile<'a>(pub &'a [u8]);

impl Source for OrderFile<'_> {
    ghost gives = { λ τ s before after o. OrderGives τ s.0.now o };

    ghost short = { no_buffer };

    fn short(&self) -> Option<Buffer> {
        None
    }

    fn draw_in(&self, style: Style, d: &mut Drawing, _answers: &mut [u16]) -> Answer<()> {
        read_orders::read_order(self.0, style, d)
    }
}

// A list of calls on a drawing opened for n points: every answer in two words. The answers are written also where what is asked then is refused.
#[derive(Clone, Copy, Debug, PartialEq, Eq)]
pub struct Calls<'a> {
    pub n: usize,
    pub calls: &'a [u16],
}

impl Source for Calls<'_> {
    ghost gives = { λ τ s before after o. CallsGive τ s.n s.calls.now before after o };

    ghost short = { answers_buffer };

    fn short(&self) -> Option<Buffer> {
        Some(Buffer::Answers)
    }

    fn draw_in(&self, style: Style, d: &mut Drawing, answers: &mut [u16]) -> Answer<()> {
        calls::run_in(d, style, self.n, self.calls, answers)
    }
}

// Draws an order file: the number of bytes written.
pub fn draw(style: Style, order: &[u8], out: &mut [u8], refusal: &mut [u64; 3]) -> u64
    ensures { Exported output_buffer out.old (draw_file style order.now) out.new result refusal.new }
{
    let written = panel::draw(style, order, out);
    panel_told::tell_written(written, Some(Buffer::Output), refusal)
}

// Reads a drawing file: the number of bytes of its order file.
pub fn undraw(style: Style, drawing: &[u8], out: &mut [u8], refusal: &mut [u64; 3]) -> u64
    ensures { Exported output_buffer out.old (order_back style drawing.now) out.new result refusal.new }
{
    let written = panel::undraw(style, drawing, out);
    panel_told::tell_written(written, Some(Buffer::Output), refusal)
}

// The drawing file of what a source gives: the number of bytes written.
pub fn file<S: Source>(
    style: Style,
    source: S,
    answers: &mut [u16],
    out: &mut [u8],
    refusal: &mut [u64; 3],
) -> u64
    ensures { FileTold (S.gives style source answers.old answers.new) S.short out.old out.new result refusal.new }
{
    let mut d = Drawing::blank();
    match source.draw_in(style, &mut d, answers) {
        Ok(()) => {
            let written = write_files::drawing_file(out, &d);
            panel_told::tell_written(written, Some(Buffer::Output), refusal)
        }
        Err(refused) => panel_told::tell_written(Err(refused), source.short(), refusal),
    }
}

// A question to the drawing that a source gives, finished or not.
pub fn ask<A, const N: usize, Q: Question<A, N>, S: Source>(
    style: Style,
    source: S,
    answers: &mut [u16],
    question: Q,
    seen: &mut [A; N],
    refusal: &mut [u64; 3],
) -> u64
    ensures { Asked (S.gives style source answers.old answers.new) (asks (Q.right question) Q.Found.given) S.short seen.old seen.new result refusal.new }
{
    let mut d = Drawing::blank();
    let drawn = source.draw_in(style, &mut d, answers);
    let found = panel_asked::find(drawn, &d, question);
    panel_told::tell(found, source.short(), seen, refusal)
}

// All moves of the drawing that a source gives, in their order: how many there are.
// Two buffers and no MoveLists, as `panel_asked::moves_from` says.
pub fn moves<S: Source>(
    style: Style,
    source: S,
    answers: &mut [u16],
    t: Tool,
    kinds: &mut [u8],
    numbers: &mut [f32],
    refusal: &mut [u64; 3],
) -> u64
    ensures { MovesTold (S.gives style source answers.old answers.new) S.short t kinds.old numbers.old kinds.new numbers.new result refusal.new }
{
    let mut d = Drawing::blank();
    let drawn = source.draw_in(style, &mut d, answers);
    let listed = panel_asked::moves_from(drawn, &d, t, kinds, numbers);
    panel_told::tell_listed(listed, source.short(), refusal)
}

// Reads a net in planar_code: its order file, and the list of its vertices by point. The number of bytes of the order file, 10n - 6; the list has n.
pub fn import(file: &[u8], order: &mut [u8], vertices: &mut [u8], refusal: &mut [u64; 3]) -> u64
    ensures { ImportTold file.now order.old vertices.old order.new vertices.new result refusal.new }
{
    let imported = planar::import(file, order, vertices);
    panel_told::tell_imported(imported, refusal)
}
