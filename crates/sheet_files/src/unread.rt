// Why no text was judged: no file was named, it could not be read, it is too long for the program, or its sheet is.
use crate::file::NoText;
use program_streams::err_name;

// No argument.
pub fn missing(rt: HostRuntime) {
    let _ = println!(rt; "unread=file why=missing");
    let _ = eprintln!(rt; "the name of a file is missing");
}

// More than one.
pub(crate) fn too_many(rt: HostRuntime) {
    let _ = println!(rt; "unread=file why=many");
    let _ = eprintln!(rt; "one file is read, and more words than one were given");
}

// Why the file that argument i names gives no text. What the system said of one that cannot be read stands behind its name.
pub(crate) fn told(rt: HostRuntime, i: usize, why: NoText) {
    match why {
        NoText::Unreadable => {
            let _ = println!(rt; "unread=file why=unreadable");
            let _ = eprint!(rt; "the file cannot be read: ");
            err_name(rt, i);
            let _ = eprintln!(rt);
        }
        NoText::Long => {
            let _ = println!(rt; "unread=file why=long limit=524288");
            err_name(rt, i);
            let _ = eprintln!(rt; " has more bytes than this program takes: 524288");
        }
    }
}

// A sheet whose windows need more slots than there are.
pub fn too_large(rt: HostRuntime) {
    let _ = println!(rt; "toolarge=slots limit=131072");
    let _ = eprintln!(rt; "the sheet needs more slots than this program has: 131072");
}
