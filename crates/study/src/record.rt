/// What a study keeps of a formula beside its nodes: whether it is judged.
#[derive(Clone, Copy, PartialEq, Eq, Debug)]
pub struct Record {
    pub judged: bool,
}
