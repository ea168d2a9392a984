//! The texts of these tests.

/// Two threads wait on one set, to which a host's call is joined: one of them is woken.
pub const TWO_WAITERS: &[u8] =
    b"scenario 1\nhandles 100000\ntable 1000000\nidle trap\nhost h polls 1 value 5\ninstance a\nthread 0\nwait r3 1\nexport g stackful 0\nset_new r3\ncall r4 r8 h\nthread_new r5 0 0\nresume_later r5\nthread_new r6 0 0\nresume_later r6\nyield\njoin 2 1\npoll r9 1\nmain\nstart a.g\nfinish 1 r0\nanswer r0\nend\n";

/// Its report, if the first one is woken.
pub const FIRST_WOKEN: &[u8] =
    b"main start 1 thread 1\nmain pends\ntake high thread 1\nthread 1 set_new 1\nthread 1 call 33 future 1\nthread 1 thread_new 2 thread 2\nthread 1 resume_later\nthread 1 thread_new 3 thread 3\nthread 1 resume_later\nthread 1 pauses\nmain pends\ntake high push 1\nmain pends\nfuture 1 ends\ntake high host 1\nmain pends\ntake low thread 2\nthread 2 pauses\nmain pends\ntake low thread 3\nthread 3 pauses\nmain pends\ntake low thread 1\nthread 1 yield\nthread 1 join wakes 2\nthread 1 poll 1 2 2\nthread 1 exit\nmain pends\ntake high thread 2\nthread 2 pauses\nmain pends\ndeadlock 15\ndeadlock 15\n";

/// The backpressure is raised, and stays raised if the host pends.
pub const STAYS_RAISED: &[u8] =
    b"scenario 1\nhandles 100\ntable 100\nidle trap\nhost disk polls 0 value 5\ninstance a\nexport get callback 0\nbp_inc\nset_new r4\ncall r3 r8 disk\nskip_eq r3 2 3\nhandle r5 r3\njoin r5 r4\ncb_wait r4\nbp_dec\nret r8\nexit\nreact\ndrop r5\nret r8\nexit\nmain\nstart a.get\nstart a.get\nfinish 1 r0\nfinish 2 r1\nanswer r1\nend\n";

/// It is lowered on both paths.
pub const IS_LOWERED: &[u8] =
    b"scenario 1\nhandles 100\ntable 100\nidle trap\nhost disk polls 0 value 5\ninstance a\nexport get callback 0\nbp_inc\nset_new r4\ncall r3 r8 disk\nskip_eq r3 2 3\nhandle r5 r3\njoin r5 r4\ncb_wait r4\nbp_dec\nret r8\nexit\nreact\ndrop r5\nbp_dec\nret r8\nexit\nmain\nstart a.get\nstart a.get\nfinish 1 r0\nfinish 2 r1\nanswer r1\nend\n";
