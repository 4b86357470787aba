//! The glyphs of a picture, in SVG 1.1: all that stands in it beside its arrows.
ghost use Rattle.std.specs.Prelude.{◌≡◌, ◌++◌, OnOk, flat_map};
ghost use Rattle.std.specs.String.{string_bytes};
ghost use Rattle.traces.specs.Glyphs.{circle_text, diamond_text, glyph_text, line_text, marked_up, name_text};
ghost use Rattle.traces.specs.Glyphs.{paint_text, shown_text, words_text};

use crate::crossings::Lane;
use crate::points::Point;
use crate::texts::Text;
use std::alloc::AllocError;

/// The most bytes of an event's line that are shown.
const LINE_BYTES: usize = 44;

/// The most bytes of a label at a lane.
const LABEL_BYTES: usize = 21;

/// The colors of a glyph.
#[derive(Clone, Copy)]
pub enum Paint {
    /// A connection's lane.
    Lane,
    /// A server's lane.
    ServerLane,
    /// The lane of a server that has failed.
    FailedLane,
    /// A failure.
    Failure,
    /// The news of a failure.
    Notice,
    /// The begin of a call.
    Begun,
    /// Bytes that came.
    Came,
    /// A reply that was put or handed over.
    Answered,
    /// A commit.
    Committed,
    /// Plain words.
    Plain,
    /// What is still in flight.
    Pale,
    /// The value of a reply.
    Value,
    /// A white edge, which keeps words readable over lines.
    Edge,
}

/// A glyph. None has the head of an arrow.
#[derive(Drop)]
pub enum Glyph {
    /// A line between two points.
    Line(Point, Point, Paint),
    /// A circle of this radius round a point.
    Circle(Point, usize, Paint),
    /// A diamond round a point.
    Diamond(Point, Paint),
    /// Words that begin at a point: at most 44 bytes of them.
    Words(Point, Paint, Text),
    /// At most 21 bytes of them, over a white edge.
    Label(Point, Paint, Text),
    /// The name of a lane.
    Name(Point, Lane),
}

/// Adds glyphs, one after another.
pub fn put_glyphs(out: &mut String, glyphs: &[Glyph]) -> Result<(), AllocError>
    ensures { OnOk result (string_bytes out.new ≡ string_bytes out.old ++ flat_map glyph_text glyphs.now) }
{
    for glyph in glyphs {
        put_glyph(out, glyph)?;
    }
    Ok(())
}

#[tactic(auto, unfolding(crate::specs::Glyphs::glyph_text))]
fn put_glyph(out: &mut String, glyph: &Glyph) -> Result<(), AllocError>
    ensures { OnOk result (string_bytes out.new ≡ string_bytes out.old ++ glyph_text glyph.now) }
{
    match glyph {
        Glyph::Line(from, to, paint) => put_line(out, *from, *to, attributes(*paint)),
        Glyph::Circle(at, radius, paint) => put_circle(out, *at, *radius, attributes(*paint)),
        Glyph::Diamond(at, paint) => put_diamond(out, *at, attributes(*paint)),
        Glyph::Words(at, paint, words) => put_words(out, *at, *paint, words, LINE_BYTES),
        Glyph::Label(at, paint, words) => {
            put_words(out, *at, Paint::Edge, words, LABEL_BYTES)?;
            put_words(out, *at, *paint, words, LABEL_BYTES)
        }
        Glyph::Name(at, Lane::Server(i)) => put_name(out, *at, "server", *i),
        Glyph::Name(at, Lane::Connection(c)) => put_name(out, *at, "connection", *c),
    }
}

// Colors, as attributes.
#[tactic(auto, unfolding(crate::specs::Glyphs::paint_text))]
fn attributes(paint: Paint) -> &'static str
    ensures { result.now ≡ paint_text paint }
{
    match paint {
        Paint::Lane => r##"stroke="#bbbbbb""##,
        Paint::ServerLane => r##"stroke="#777777" stroke-width="2""##,
        Paint::FailedLane => r##"stroke="#cccccc" stroke-dasharray="2 5""##,
        Paint::Failure => r##"stroke="#c62828" stroke-width="3""##,
        Paint::Notice => r##"fill="#c62828""##,
        Paint::Begun => r#"fill="white" stroke="black""#,
        Paint::Came => r##"fill="#777777""##,
        Paint::Answered => r##"fill="#2e7d32""##,
        Paint::Committed => r##"fill="#ef6c00""##,
        Paint::Plain => r#"fill="black""#,
        Paint::Pale => r##"fill="#999999""##,
        Paint::Value => r##"fill="#2e7d32" font-weight="bold""##,
        Paint::Edge => r#"fill="white" stroke="white" stroke-width="4" stroke-linejoin="round""#,
    }
}

/// Adds a line with these attributes.
#[tactic(auto, unfolding(crate::specs::Glyphs::line_text))]
pub fn put_line(out: &mut String, from: Point, to: Point, style: &str) -> Result<(), AllocError>
    ensures { OnOk result (string_bytes out.new ≡ string_bytes out.old ++ line_text from to style.now) }
{
    writeln!(
        out,
        r#"<line x1="{}" y1="{}" x2="{}" y2="{}" {style}/>"#,
        from.x, from.y, to.x, to.y
    )
}

#[tactic(auto, unfolding(crate::specs::Glyphs::circle_text))]
fn put_circle(out: &mut String, at: Point, radius: usize, style: &str) -> Result<(), AllocError>
    ensures { OnOk result (string_bytes out.new ≡ string_bytes out.old ++ circle_text at radius style.now) }
{
    let Point { x, y } = at;
    writeln!(out, r#"<circle cx="{x}" cy="{y}" r="{radius}" {style}/>"#)
}

#[tactic(auto, unfolding(crate::specs::Glyphs::diamond_text))]
fn put_diamond(out: &mut String, at: Point, style: &str) -> Result<(), AllocError>
    ensures { OnOk result (string_bytes out.new ≡ string_bytes out.old ++ diamond_text at style.now) }
{
    let Point { x, y } = at;
    let (top, bottom) = (y.saturating_sub(6), y.saturating_add(6));
    let (left, right) = (x.saturating_sub(6), x.saturating_add(6));
    writeln!(
        out,
        r#"<polygon points=" {x},{top} {right},{y} {x},{bottom} {left},{y}" {style}/>"#
    )
}

// Words that begin at a point: at most n bytes of them.
#[tactic(auto, unfolding(crate::specs::Glyphs::words_text))]
fn put_words(
    out: &mut String,
    at: Point,
    paint: Paint,
    words: &Text,
    most: usize,
) -> Result<(), AllocError>
    ensures { OnOk result
        (string_bytes out.new ≡ string_bytes out.old ++ words_text at (paint_text paint) words.now most) }
{
    let (Point { x, y }, style) = (at, attributes(paint));
    write!(out, r#"<text x="{x}" y="{y}" {style}>"#)?;
    put_shown(out, words.as_slice(), most)?;
    out.push_str("</text>\n")
}

// A text: at most n of its bytes, and two dots if there are more.
#[tactic(auto, unfolding(crate::specs::Glyphs::shown_text))]
fn put_shown(out: &mut String, words: &[u8], most: usize) -> Result<(), AllocError>
    ensures { OnOk result (string_bytes out.new ≡ string_bytes out.old ++ shown_text words.now most) }
{
    if words.len() <= most {
        return put_marked_up(out, words);
    }
    put_marked_up(out, &words[..most])?;
    out.push_str("..")
}

// Bytes as the text of an element: what XML gives a meaning is spelled by its entity, and what XML 1.0 has no character
// for, or no single byte in UTF-8, is a question mark. Texts in the escapes of transcripts have none of these.
fn put_marked_up(out: &mut String, words: &[u8]) -> Result<(), AllocError>
    ensures { OnOk result (string_bytes out.new ≡ string_bytes out.old ++ flat_map marked_up words.now) }
{
    for b in words {
        put_byte(out, *b)?;
    }
    Ok(())
}

#[tactic(auto, unfolding(crate::specs::Glyphs::marked_up))]
fn put_byte(out: &mut String, b: u8) -> Result<(), AllocError>
    ensures { OnOk result (string_bytes out.new ≡ string_bytes out.old ++ marked_up b) }
{
    match b {
        b'&' => out.push_str("&amp;"),
        b'<' => out.push_str("&lt;"),
        b'>' => out.push_str("&gt;"),
        b'"' => out.push_str("&quot;"),
        b'\'' => out.push_str("&apos;"),
        b' '..=b'~' => out.push(char::from(b)),
        _ => out.push_str("?"),
    }
}

// The name of a lane.
#[tactic(auto, unfolding(crate::specs::Glyphs::name_text))]
fn put_name(out: &mut String, at: Point, word: &str, number: usize) -> Result<(), AllocError>
    ensures { OnOk result (string_bytes out.new ≡ string_bytes out.old ++ name_text at word.now number) }
{
    let Point { x, y } = at;
    writeln!(
        out,
        r#"<text x="{x}" y="{y}" font-weight="bold">{word} {number}</text>"#
    )
}
