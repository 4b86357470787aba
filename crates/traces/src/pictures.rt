//! A picture as a text in SVG 1.1: its lanes, its arrows, and its glyphs.
ghost use Rattle.std.specs.Prelude.{◌≡◌, ◌++◌, IfOk, OnOk, flat_map};
ghost use Rattle.std.specs.String.{string_bytes};
ghost use Rattle.traces.specs.Pictures.{arrow_text, head_text, picture_text, style};

use crate::arrows::Arrow;
use crate::crossings::Lane;
use crate::glyphs::{Glyph, put_glyphs, put_line};
use crate::lanes::Lanes;
use std::alloc::{AllocError, Global};

/// A picture of this height: glyphs, arrows over them, and further glyphs over these.
#[tactic(auto, unfolding(crate::specs::Pictures::picture_text))]
pub fn picture(
    alloc: Global,
    lanes: &Lanes,
    height: usize,
    under: &[Glyph],
    arrows: &[Arrow],
    over: &[Glyph],
) -> Result<Vec<u8>, AllocError>
    ensures { IfOk result (λ text. text.items ≡ picture_text lanes.now height under.now arrows.now over.now) }
{
    let mut out = String::new(alloc);
    put_head(&mut out, lanes.width(), height)?;
    put_glyphs(&mut out, under)?;
    put_arrows(&mut out, lanes, arrows)?;
    put_glyphs(&mut out, over)?;
    out.push_str("</svg>\n")?;
    Ok(out.into_bytes())
}

// How a picture of this size begins.
#[tactic(auto, unfolding(crate::specs::Pictures::head_text))]
fn put_head(out: &mut String, width: usize, height: usize) -> Result<(), AllocError>
    ensures { OnOk result (string_bytes out.new ≡ string_bytes out.old ++ head_text width height) }
{
    write!(
        out,
        "<?xml version=\"1.0\" encoding=\"UTF-8\"?>\n\
         <svg xmlns=\"http://www.w3.org/2000/svg\" version=\"1.1\" width=\"{width}\" height=\"{height}\" \
         viewBox=\"0 0 {width} {height}\" font-family=\"monospace\" font-size=\"12\">\n\
         <defs><marker id=\"arrow\" markerWidth=\"9\" markerHeight=\"8\" refX=\"8\" refY=\"4\" orient=\"auto\">\
         <path d=\"M0,0 L9,4 L0,8 z\" fill=\"#444444\"/></marker></defs>\n\
         <rect width=\"100%\" height=\"100%\" fill=\"white\"/>\n"
    )
}

fn put_arrows(out: &mut String, lanes: &Lanes, arrows: &[Arrow]) -> Result<(), AllocError>
    ensures { OnOk result
        (string_bytes out.new ≡ string_bytes out.old ++ flat_map (arrow_text lanes.now) arrows.now) }
{
    for arrow in arrows {
        put_arrow(out, lanes, *arrow)?;
    }
    Ok(())
}

// From where something was put to where it was taken.
#[tactic(auto, unfolding(crate::specs::Pictures::arrow_text))]
fn put_arrow(out: &mut String, lanes: &Lanes, arrow: Arrow) -> Result<(), AllocError>
    ensures { OnOk result (string_bytes out.new ≡ string_bytes out.old ++ arrow_text lanes.now arrow) }
{
    let way = arrow.put.way;
    let from = lanes.point(way.from, arrow.put.row);
    let to = lanes.point(way.to, arrow.row);
    put_line(out, from, to, style(way.to, arrow.came))
}

// The color of arrows to servers, and that of replies; the head of an arrow; one in flight is dashed.
#[tactic(auto, unfolding(crate::specs::Pictures::style))]
fn style(to: Lane, came: bool) -> &'static str
    ensures { result.now ≡ style to came }
{
    match (to, came) {
        (Lane::Server(_), true) => r##"stroke="#1f5fa8" marker-end="url(#arrow)""##,
        (Lane::Server(_), false) => {
            r##"stroke="#1f5fa8" stroke-dasharray="6 4" marker-end="url(#arrow)""##
        }
        (Lane::Connection(_), true) => r##"stroke="#2e7d32" marker-end="url(#arrow)""##,
        (Lane::Connection(_), false) => {
            r##"stroke="#2e7d32" stroke-dasharray="6 4" marker-end="url(#arrow)""##
        }
    }
}
