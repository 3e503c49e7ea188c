// `plans`: from a request for a weight set to the plan of its windows (edges, scale, radius, window size), or its refusal, No. 16, then 1 to 6. For `coefficients`.
#![tactic(auto)]

mod planning;

pub use planning::prepare;

// The axis that is built: across the image (columns) or down it (lines).
#[derive(Clone, Copy)]
pub enum Axis {
    Across,
    Down,
}

// What is asked: both image sides, the crop box, one axis and its output side, the filter's name, and whether the kernel adapts.
#[derive(Clone, Copy)]
pub struct Request {
    pub width: u32,
    pub height: u32,
    pub crop: crop_box::CropBox,
    pub axis: Axis,
    pub output: u32,
    pub filter: filters::FilterType,
    pub adapts: bool,
}

// The crop along the axis.
#[derive(Clone, Copy)]
pub struct Edge {
    pub side: u32,
    pub near: f64,
    pub far: f64,
}

// The numbers that all windows of a request share; `recip` is one over the filter scale.
#[derive(Clone, Copy)]
pub struct Plan {
    pub filter: filters::Filter,
    pub side: u32,
    pub output: u32,
    pub near: f64,
    pub scale: f64,
    pub recip: f64,
    pub radius: f64,
    pub window: u32,
}
