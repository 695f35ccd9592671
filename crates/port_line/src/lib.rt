// A line of the port program's input (document 01, "Numbers on either side"): what it does to the controller and the areas, and what is
// printed of it.
//
// Promised for every line, every content of the areas and every buffer (`step::step`): all that the line leaves is specs/Meaning.antt's
// `meaning`, by the calls of the model; what it says stands in the buffer as far as there is room. Nothing is asked of the caller.
//
// `calls` makes the call of a line, `step` reads the line.
#![tactic(auto, unfolding(crate::specs::Meaning::meaning, crate::specs::Meaning::fresh_setup, port_text::specs::Line::line_of, port_text::specs::Line::line_as, port_text::specs::Line::write_of, port_text::specs::Line::dir_of, port_text::specs::Report::reply_text, port_digits::specs::Write::onto, model::specs::Event::silent))]

ghost use Rattle.std.specs.Prelude.{◌≡◌};
ghost use Rattle.port_line.specs.Meaning.{due};

pub mod calls;
pub mod step;

use model::Controller;

// The port that is being described: which setup line is due (0 to 3; 4 when events have begun), and what the earlier ones said.
#[derive(Clone, Copy)]
pub struct Setup {
    // A number, not an enum: `step::step` takes each, and promises something of those, too, that are no stage.
    pub stage: u16,
    pub addr: u16,
    pub code: u16,
    pub sink: bool,
}

impl Setup {
    // The setup line of this number is due.
    pub(crate) fn is_due(self, stage: u16) -> bool
        ensures { result ≡ due stage self }
    {
        self.stage == stage
    }
}

// What a line leaves and the next one finds: the number of a refusal or 0, controller and setup, and the place of the next byte of output. What
// a refused line leaves is promised too (`step::step`), so that the number stands beside it and no `Err` takes its place.
#[derive(Clone, Copy)]
pub struct Stepped {
    // A number, not an enum: `pieces::feed` of `port_run` takes each, and promises something of those, too, that no line leaves.
    pub refusal: u16,
    pub controller: Controller,
    pub setup: Setup,
    pub at: usize,
}
