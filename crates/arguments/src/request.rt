// What arguments ask for: the work of the program or its help; or they are not those that it takes.
#[derive(Clone, Copy, PartialEq, Eq, Debug)]
pub enum Asked {
    Work,
    Help,
    Unknown,
}
