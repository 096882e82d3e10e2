// What is masked of a command: three choices, each made by the labels noted for it.
#[derive(Clone, Copy, PartialEq, Eq)]
pub struct Decision {
    // the condition of an if or of a loop
    pub condition: bool,
    // the index of a read or write
    pub index: bool,
    // the value of a read
    pub value: bool,
}

impl Decision {
    // Nothing is masked.
    pub const NONE: Self = Decision {
        condition: false,
        index: false,
        value: false,
    };
}
