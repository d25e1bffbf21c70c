//! What is left of a run that was told.

ghost use Rattle.std.specs.Prelude.{◌≡◌};
ghost use Rattle.trace_session.specs.declared.traced.Product.TheVariants as products;

use trace_picture::Areas;
use trace_summary::Summary;
use wind_session::RunEnd;

/// What a form leaves besides the text that it puts.
#[derive(Drop)]
pub enum Product {
    /// The text is all.
    Text,
    /// The areas of the picture.
    Picture(Areas),
    /// The figures of the table.
    Table(Summary),
}

/// A run that was told.
#[derive(Drop)]
pub struct TracedRun {
    /// How the run ended, or that a put failed.
    pub end: RunEnd,
    /// What it leaves.
    pub product: Product,
}

impl TracedRun {
    /// A run of which a text was put and nothing else is left.
    pub(crate) fn text(end: RunEnd) -> TracedRun
        ensures { result ≡ record { end = end; product = products.Text } }
    {
        TracedRun {
            end,
            product: Product::Text,
        }
    }
}
