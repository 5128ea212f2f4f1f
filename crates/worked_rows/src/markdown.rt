//! The lines of a Markdown page that part it: headings, and the fences of blocks.
ghost use Rattle.std.specs.Prelude.{◌≤◌, IfSome};

/// How many backticks a fence has at least.
const FENCE: usize = 3;

/// A line that begins or ends a block: its backticks, and the text behind them.
#[derive(Clone, Copy)]
pub struct Fence<'t> {
    pub ticks: usize,
    pub info: &'t str,
}

impl<'t> Fence<'t> {
    /// The fence that a line is, if it begins with three backticks or more and has no other.
    pub fn of_line(line: &'t str) -> Option<Fence<'t>>
        ensures { IfSome result (λ fence. FENCE ≤ fence.ticks) }
    {
        let info = line.trim_start_matches('`');
        let ticks = line.len() - info.len();
        if ticks < FENCE || info.contains('`') {
            return None;
        }
        Some(Fence { ticks, info })
    }

    /// Whether it ends a block that began with so many backticks.
    pub fn ends(&self, ticks: usize) -> bool {
        self.ticks >= ticks && self.info.trim().is_empty()
    }
}

/// The text of a heading, if a line is one: up to six number signs, a space, and the text.
pub fn heading_of(line: &str) -> Option<&str> {
    let text = line.trim_start_matches('#');
    let level = line.len() - text.len();
    if level == 0 || level > 6 || !text.starts_with(' ') {
        return None;
    }
    Some(text.trim())
}
