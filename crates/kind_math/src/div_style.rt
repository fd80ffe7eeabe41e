/// How a divider's field stands for its divisor.
#[derive(Clone, Copy, Debug, PartialEq, Eq)]
pub enum DivStyle {
    /// The field plus 1.
    Plain,
    /// The field itself; 0 divides by nothing.
    OneBased,
    /// 2 to the power of the field.
    PowerOfTwo,
}
