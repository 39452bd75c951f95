//! The calls that are made.
/// A call of a library.
#[derive(Clone, Copy, Debug, PartialEq, Eq)]
pub enum Call {
    CheckPath,
    // Texts, automata, tables and images.
    Read,
    Write,
    Compile,
    Pack,
    PackChained,
    ToBytes,
    ToBytesV1,
    FromBytes,
    MakeCompiledProfile,
    MakeLoadedProfile,
    // What is published.
    CopyName,
    ShareProfile,
    NewPublisher,
    NewReader,
    Replace,
    Remove,
    Publish,
    Get,
    // Trees.
    NewPlainTree,
    ApplyToPlainTree,
    NewRow,
    Plan,
    ChangeRow,
    NewKeeper,
    TestByKeeper,
    ApplyByKeeper,
    NewWalker,
    // Opens and links.
    NewVerdictCache,
    KeepVerdict,
    LookForVerdict,
    NewSession,
    SelectProfile,
    TryOpen,
    OpenWith,
    OpenWithBoth,
    LinkWith,
    LinkWithBoth,
    // The machine over events.
    NewCore,
    Step,
    TestByCore,
    Justify,
}
