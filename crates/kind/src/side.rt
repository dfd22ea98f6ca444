// Which side is folded: G, with l, or H, with r. The formulas differ.
#[derive(Clone, Copy)]
pub enum Side {
    OfG,
    OfH,
}
