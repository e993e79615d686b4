//! Prints what the shapes, their products and depth limits over them answer, to be compared with tables that
//! `tools/tables.py` computes from the geometry of the cells.

#![tactic(auto)]

mod anchors;
mod answer;
mod asked;
mod plans;
mod questions;
mod row;

use anchors::print_cells;
use models::Anchor;
use plans::print_plan;
use product::{Hexahedron, Prism, Product};
use questions::{print_deep, print_whole};
use scheme::{Flat, Limit, Scheme};
use shapes::Line;
use square::Square;
use triangle::Triangle;

/// All answers of a scheme down to a level, and some at its deepest.
fn print_scheme<S: Scheme>(
    rt: &HostRuntime,
    name: &str,
    scheme: &S,
    levels: u8,
) -> anyhow::Result<()> {
    print_whole(rt, name, scheme, levels)?;
    print_deep(rt, name, scheme)
}

/// The same of a flat scheme, with its cells on the plan.
fn print_flat<S: Flat>(rt: &HostRuntime, name: &str, flat: &S, levels: u8) -> anyhow::Result<()> {
    print_scheme(rt, name, flat, levels)?;
    print_plan(rt, name, flat, levels)
}

/// The flat shapes.
fn print_flats(rt: &HostRuntime) -> anyhow::Result<()> {
    let (square, triangle) = (Square::new(), Triangle::new());
    print_flat(rt, "line", &Line::new(), 3)?;
    print_flat(rt, "square", &square, 3)?;
    print_cells(
        rt,
        "square",
        &square,
        |level, place| square.cell(level, place),
        |level, Anchor { x, y, ty }| square.place_at(level, x, y, ty),
    )?;
    print_flat(rt, "triangle", &triangle, 3)?;
    print_cells(
        rt,
        "triangle",
        &triangle,
        |level, place| triangle.cell(level, place),
        |level, Anchor { x, y, ty }| triangle.place_at(level, x, y, ty),
    )
}

/// Products of two flat shapes.
fn print_products(rt: &HostRuntime) -> anyhow::Result<()> {
    let (line, square, triangle) = (Line::new(), Square::new(), Triangle::new());
    let prism: Prism = times(triangle, line);
    print_scheme(rt, "prism", &prism, 3)?;
    let hexahedron: Hexahedron = times(square, line);
    print_scheme(rt, "hexahedron", &hexahedron, 3)?;
    print_scheme(rt, "line by line", &times(line, line), 2)?;
    print_scheme(rt, "line by square", &times(line, square), 2)?;
    print_scheme(rt, "square by square", &times(square, square), 2)?;
    let two_triangles = times(triangle, triangle);
    print_scheme(rt, "triangle by triangle", &two_triangles, 2)
}

/// Depth limits over flat shapes, with a level past each.
fn print_flat_limits(rt: &HostRuntime) -> anyhow::Result<()> {
    let line = down_to(Line::new(), 0);
    print_whole(rt, "line to 0", &line, 1)?;
    print_plan(rt, "line to 0", &line, 1)?;
    let square = down_to(Square::new(), 1);
    print_whole(rt, "square to 1", &square, 2)?;
    print_plan(rt, "square to 1", &square, 2)?;
    let triangle = down_to(Triangle::new(), 2);
    print_whole(rt, "triangle to 2", &triangle, 3)?;
    print_plan(rt, "triangle to 2", &triangle, 3)?;
    print_deep(rt, "line to 30", &down_to(Line::new(), 30))
}

/// A depth limit over a product, and products of limited shapes, with a level past each.
fn print_product_limits(rt: &HostRuntime) -> anyhow::Result<()> {
    let (line, square, triangle) = (Line::new(), Square::new(), Triangle::new());
    let prism = down_to(times(triangle, line), 1);
    print_whole(rt, "prism to 1", &prism, 2)?;
    let hexahedron = times(down_to(square, 2), down_to(line, 1));
    print_whole(rt, "square to 2 by line to 1", &hexahedron, 2)?;
    let flattened = times(down_to(line, 0), triangle);
    print_whole(rt, "line to 0 by triangle", &flattened, 1)?;
    let mixed = times(square, down_to(triangle, 7));
    print_deep(rt, "square by triangle to 7", &mixed)
}

/// The product of two flat schemes.
fn times<A, B>(first: A, second: B) -> Product<A, B> {
    Product { first, second }
}

/// A depth limit over a scheme.
fn down_to<S>(below: S, limit: u8) -> Limit<S> {
    Limit { below, limit }
}

/// All of it.
fn print_all(rt: &HostRuntime) -> anyhow::Result<()> {
    print_flats(rt)?;
    print_products(rt)?;
    print_flat_limits(rt)?;
    print_product_limits(rt)
}

fn main(rt: HostRuntime) -> anyhow::Result<()> {
    print_all(&rt)
}
