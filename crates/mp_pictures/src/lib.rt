//! Pictures of plans: the concurrent steps of a plan as SVG 1.1.
#![tactic(auto)]

mod boxes;
mod chain;
mod columns;
mod labels;
mod lanes;
mod page;
mod picture;
mod shapes;
mod svg;
mod writing;

pub use svg::steps_svg;
