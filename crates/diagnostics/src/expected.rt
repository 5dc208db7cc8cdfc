// What the elements of files must be.
use crate::file_kind::FileKind;

/// What the k-th element of the outer tuple must be, or, for 0, the whole term (app(4), rel(4), appup(4), relup(4)).
pub(crate) fn expected(kind: FileKind, element: u8) -> &'static str {
    match kind {
        FileKind::App => app_element(element),
        FileKind::Rel => rel_element(element),
        FileKind::Appup => appup_element(element),
        FileKind::Relup => relup_element(element),
        FileKind::Source => "another one",
    }
}

/// What stands in an `.app`.
fn app_element(element: u8) -> &'static str {
    match element {
        0 => "{application,App,[{Key,Value}]}",
        1 => "the atom application",
        2 => "the application's name, an atom, as the file and the .rel name it",
        _ => {
            "[{Key,Value}] with {vsn,Vsn}, the version that the .rel names, a string; {modules,[Mod]} and {applications,[App]} of atoms; \
             {mod,{Mod,Args}} or {mod,[]}"
        }
    }
}

/// What stands in a `.rel`.
fn rel_element(element: u8) -> &'static str {
    match element {
        0 => "{release,{Name,Vsn},{erts,EVsn},[Application]}",
        1 => "the atom release",
        2 => "{Name,Vsn}, two strings, Vsn as the folder of releases is named",
        3 => "{erts,EVsn}, EVsn a string",
        _ => {
            "a list of {App,AVsn}, {App,AVsn,Type}, {App,AVsn,[IncApp]} or {App,AVsn,Type,[IncApp]}, no application twice, Type permanent, \
             transient, temporary, load or none"
        }
    }
}

/// What stands in an `.appup`.
fn appup_element(element: u8) -> &'static str {
    match element {
        0 => "{Vsn,[{UpFrom,Instructions}],[{DownTo,Instructions}]}",
        1 => "a version, a string",
        2 => "[{UpFrom,Instructions}], UpFrom a version, Instructions a list",
        _ => "[{DownTo,Instructions}], DownTo a version, Instructions a list",
    }
}

/// What stands in a relup.
fn relup_element(element: u8) -> &'static str {
    match element {
        0 => "{Vsn,[{UpFrom,Descr,Instructions}],[{DownTo,Descr,Instructions}]}",
        1 => "the release's version, a string, as the folder of releases is named",
        2 => "[{UpFrom,Descr,Instructions}], UpFrom a version, Instructions a list",
        _ => "[{DownTo,Descr,Instructions}], DownTo a version, Instructions a list",
    }
}
