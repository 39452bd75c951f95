//! Texts of profiles, for tables.
/// Profiles. Version 1 of images can hold the tables of all but the last.
pub const PROFILE_TEXTS: [&[u8]; 12] = [
    b"profile p { }",
    b"profile p { /etc/passwd r, }",
    b"profile p { /** r, }",
    b"profile p { /**a??? r, }",
    b"profile p { /**a????? r, deny /**b rw, }",
    b"profile p { /{usr/,}lib{,32,64}/**.so* rm, deny /usr/lib/*/secret r, }",
    b"profile p { /[a-m]*/x w, /[^a-m]?/** r, /[0-9]* k, }",
    b"profile p { /a{,b,bc,bcd} k, /abcde l, /abc** w, }",
    b"profile p { /*/*/* r, /a/** w, /**/b m, deny /*/c** rwlkm, }",
    b"profile p { /[^a] r, /[^a][^b] w, /[^ac][^bd][^ef] k, /?????? m, }",
    b"profile p { /[a-h]0 r, /[b-h]1 r, /[c-h]2 r, /[d-h]3 r, /[e-h]4 r, /[f-h]5 r, /[gh]6 r, /h7 r, }",
    b"profile p { /** a, /*a w, deny /*b* a, deny /**c w, }",
];
