//! The names of Linux's error numbers.

ghost use Rattle.std.specs.Prelude.{◌≡◌, ◌==◌, Some, option_map, slice_get};
ghost use Rattle.std.specs.List.{list_any, slice_split};
ghost use Rattle.sf_profile.specs.Errors.{is_error_name, is_name, name_from};

/// Numbers that follow one another: the first one, and the names of all. They are of Linux's
/// include/uapi/asm-generic/errno-base.h and errno.h; ENOTSUP is the C library's.
const ERROR_NAMES: [(u64, &str); 27] = [
    (1, "EPERM ENOENT ESRCH EINTR EIO ENXIO E2BIG ENOEXEC"),
    (9, "EBADF ECHILD EAGAIN ENOMEM EACCES EFAULT ENOTBLK"),
    (16, "EBUSY EEXIST EXDEV ENODEV ENOTDIR EISDIR EINVAL"),
    (23, "ENFILE EMFILE ENOTTY ETXTBSY EFBIG ENOSPC ESPIPE"),
    (30, "EROFS EMLINK EPIPE EDOM ERANGE EDEADLK ENAMETOOLONG"),
    (37, "ENOLCK ENOSYS ENOTEMPTY ELOOP"),
    (42, "ENOMSG EIDRM ECHRNG EL2NSYNC EL3HLT EL3RST ELNRNG"),
    (49, "EUNATCH ENOCSI EL2HLT EBADE EBADR EXFULL ENOANO"),
    (56, "EBADRQC EBADSLT"),
    (59, "EBFONT ENOSTR ENODATA ETIME ENOSR ENONET ENOPKG"),
    (66, "EREMOTE ENOLINK EADV ESRMNT ECOMM EPROTO EMULTIHOP"),
    (73, "EDOTDOT EBADMSG EOVERFLOW ENOTUNIQ EBADFD EREMCHG"),
    (79, "ELIBACC ELIBBAD ELIBSCN ELIBMAX ELIBEXEC EILSEQ"),
    (85, "ERESTART ESTRPIPE EUSERS ENOTSOCK EDESTADDRREQ"),
    (90, "EMSGSIZE EPROTOTYPE ENOPROTOOPT EPROTONOSUPPORT"),
    (94, "ESOCKTNOSUPPORT EOPNOTSUPP EPFNOSUPPORT EAFNOSUPPORT"),
    (98, "EADDRINUSE EADDRNOTAVAIL ENETDOWN ENETUNREACH"),
    (102, "ENETRESET ECONNABORTED ECONNRESET ENOBUFS EISCONN"),
    (107, "ENOTCONN ESHUTDOWN ETOOMANYREFS ETIMEDOUT"),
    (111, "ECONNREFUSED EHOSTDOWN EHOSTUNREACH EALREADY"),
    (115, "EINPROGRESS ESTALE EUCLEAN ENOTNAM ENAVAIL EISNAM"),
    (121, "EREMOTEIO EDQUOT ENOMEDIUM EMEDIUMTYPE ECANCELED"),
    (126, "ENOKEY EKEYEXPIRED EKEYREVOKED EKEYREJECTED"),
    (130, "EOWNERDEAD ENOTRECOVERABLE ERFKILL EHWPOISON"),
    (11, "EWOULDBLOCK"),
    (35, "EDEADLOCK"),
    (95, "ENOTSUP"),
];

fn word_at(words: &str, place: usize) -> Option<&str>
    ensures { option_map (λ w. w.now) result
        ≡ slice_get (slice_split (λ b. b == 32) words.now) place }
{
    words.split(' ').nth(place)
}

/// The name of a number, among these of numbers that follow one another.
fn name_from(first: u64, names: &str, number: u64) -> Option<&str>
    ensures { option_map (λ n. n.now) result ≡ name_from first names.now number }
{
    if number < first {
        return None;
    }
    word_at(names, (number - first) as usize)
}

fn has_in(run: &(u64, &str), text: &str, number: u64) -> bool
    ensures { result ≡ is_name text.now (name_from run.now.0 run.now.1.now number) }
{
    match name_from(run.0, run.1, number) {
        Some(name) => name == text,
        None => false,
    }
}

fn has_error(runs: &[(u64, &str)], text: &str, number: u64) -> bool
    ensures { result ≡ list_any (λ r. is_name text.now (name_from r.0 r.1.now number)) runs.now }
{
    runs.iter().any(|run| has_in(run, text, number))
}

fn names_error(text: &str, number: u64) -> bool
    ensures { result ≡ is_error_name text.now (Some number) }
{
    has_error(ERROR_NAMES.as_slice(), text, number)
}

pub(crate) fn is_error_name(text: &str, number: Option<u64>) -> bool
    ensures { result ≡ is_error_name text.now number }
{
    match number {
        Some(given) => names_error(text, given),
        None => false,
    }
}

fn has_word(words: &str, text: &str) -> bool {
    words.split(' ').any(|word| word == text)
}

pub(crate) fn is_any_error_name(text: &str) -> bool {
    ERROR_NAMES.iter().any(|run| has_word(run.1, text))
}
