//! The files that are opened.

/// A file, and the directory that it is in.
#[derive(Clone, Copy)]
pub(crate) struct Route {
    pub name: &'static str,
    pub file: &'static [u8],
    /// The directory's name.
    pub directory: &'static [u8],
    /// Its other name, which it has now and then if it is renamed.
    pub renamed: &'static [u8],
}

/// Files 1, 2, 4, 8 and 16 directories down, and one that is four down by one symbolic link and by four.
pub(crate) const ROUTES: [Route; 7] = [
    Route {
        name: "down_1",
        file: b"/d01/file",
        directory: b"/d01",
        renamed: b"/gone",
    },
    Route {
        name: "down_2",
        file: b"/d01/d02/file",
        directory: b"/d01/d02",
        renamed: b"/d01/gone",
    },
    Route {
        name: "down_4",
        file: b"/d01/d02/d03/d04/file",
        directory: b"/d01/d02/d03/d04",
        renamed: b"/d01/d02/d03/gone",
    },
    Route {
        name: "down_8",
        file: b"/d01/d02/d03/d04/d05/d06/d07/d08/file",
        directory: b"/d01/d02/d03/d04/d05/d06/d07/d08",
        renamed: b"/d01/d02/d03/d04/d05/d06/d07/gone",
    },
    Route {
        name: "down_16",
        file: b"/d01/d02/d03/d04/d05/d06/d07/d08/d09/d10/d11/d12/d13/d14/d15/d16/file",
        directory: b"/d01/d02/d03/d04/d05/d06/d07/d08/d09/d10/d11/d12/d13/d14/d15/d16",
        renamed: b"/d01/d02/d03/d04/d05/d06/d07/d08/d09/d10/d11/d12/d13/d14/d15/gone",
    },
    Route {
        name: "links_1",
        file: b"/one/file",
        directory: b"/d01/d02/d03/d04",
        renamed: b"/d01/d02/d03/gone",
    },
    Route {
        name: "links_4",
        file: b"/four/file",
        directory: b"/d01/d02/d03/d04",
        renamed: b"/d01/d02/d03/gone",
    },
];
